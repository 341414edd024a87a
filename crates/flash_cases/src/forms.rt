use cq_words::{BitField, FieldValue, bits, get32, get64, put32, put64, with_bits};
use image_form::{Gate, Super, read_gate, read_super, write_gate, write_super};

#[test]
fn words_are_read_as_written(rt: HostRuntime) {
    let mut bytes = [0u8; 12];
    put32(&mut bytes, 0, 0x0186_402f);
    put64(&mut bytes, 4, 0x0320_0101_0000_1000);
    assert!(rt; bytes[0] == 0x2f);
    assert!(rt; get32(&bytes, 0) == 0x0186_402f);
    assert!(rt; get64(&bytes, 4) == 0x0320_0101_0000_1000);
    let word = with_bits(0x0000_1000_0008_102f, 16, 16, 0xfeed);
    assert!(rt; word == 0x0000_1000_feed_102f);
    assert!(rt; bits(word, 3, 3) == 5);
    let direction = BitField { low: 12, width: 1 };
    let blocks = BitField { low: 16, width: 16 };
    let word = FieldValue::word_of(&[direction.flag(true), blocks.of(8)]);
    assert!(rt; word == 0x0008_1000);
    assert!(rt; direction.is_set(word));
    assert!(rt; blocks.of(0x1_0003).put(word) == 0x0003_1000);
}

#[test]
fn image_is_read_as_written(rt: HostRuntime) {
    let s = Super {
        version: 1,
        sectors: 8,
    };
    let block = write_super(s);
    assert!(rt; block.0[7] == 0x47);
    assert!(rt; block.0[8] == 1);
    assert!(rt; block.0[12] == 8);
    assert!(rt; read_super(&block) == Some(s));
    let gate = write_gate(Gate::Ajar(3));
    assert!(rt; gate.0[7] == 0x45);
    assert!(rt; gate.0[8] == 4);
    assert!(rt; read_gate(&gate, 8) == Some(Gate::Ajar(3)));
    assert!(rt; read_gate(&gate, 3) == None);
}
