ghost use Rattle.std.specs.Prelude.{◌≡◌};

use bitflags::Flags;
use cmd_words::{Command, Illegal, Status, Task};
use ext_csd::{Change, ExtCsd, Field, SwitchError};

const WRITE: Task = Task {
    task: 3,
    read: false,
    blocks: 8,
    forced: true,
    reliable: false,
    high: false,
};

const FIRST_READ: Task = Task {
    task: 0,
    read: true,
    blocks: 1,
    forced: false,
    reliable: false,
    high: true,
};

fn has_words(command: Command, words: (u8, u32)) -> bool {
    command.encode() == words && Command::decode(words.0, words.1) == Ok(command)
}

fn is_illegal(index: u8, argument: u32) -> bool {
    Command::decode(index, argument) == Err(Illegal)
}

#[test]
fn commands_have_their_words(rt: HostRuntime) {
    let rows = [
        (Command::Params(WRITE), (44, 0x0103_0008)),
        (Command::Params(FIRST_READ), (44, 0x4080_0001)),
        (
            Command::Execute {
                read: true,
                task: 5,
            },
            (46, 0x0005_0000),
        ),
        (
            Command::Manage {
                whole: true,
                task: 0,
            },
            (48, 0x0000_0001),
        ),
        (
            Command::Manage {
                whole: false,
                task: 2,
            },
            (48, 0x0002_0002),
        ),
        (
            Command::Status {
                queue: true,
                rca: 1,
            },
            (13, 0x0001_8000),
        ),
    ];
    for (command, words) in rows {
        assert!(rt; has_words(command, words), "of {command:?}");
    }
    for (index, argument) in [(17, 0), (48, 0x0002_0003)] {
        assert!(rt; is_illegal(index, argument), "of {index}");
    }
}

#[test]
fn a_status_has_its_word(rt: HostRuntime) {
    assert_eq!(rt; Status::empty().word(), 0x0000_0900);
    assert_eq!(rt; Status::SWITCH_ERROR.word(), 0x0000_0980);
    assert_eq!(rt; Status::of_word(0x8000_0900), Status::ADDRESS_OUT_OF_RANGE);
}

fn has_value(csd: &ExtCsd, field: Field, value: u32) -> bool {
    csd.get(field) == value
}

fn switches(csd: &mut ExtCsd, argument: u32, change: Result<Change, SwitchError>) -> bool {
    csd.switch(argument) == change
}

#[test]
fn extended_csd_is_read_and_switched(rt: HostRuntime) {
    let mut csd = ExtCsd::new(8, 16, 64);
    let values = [0, 0, 0, 0, 0, 0, 0, 4, 0, 8, 8, 1, 0, 256, 15, 1, 1];
    for (field, value) in Field::ALL.iter().zip(values.iter()) {
        assert!(rt; has_value(&csd, *field, *value), "of {field:?}");
    }
    let refused = Err(SwitchError);
    let rows = [
        (0x0320_0201, refused, "no barrier while BARRIER_CTRL is 0"),
        (0x031f_0101, Ok(Change::Plain), "BARRIER_CTRL"),
        (0x0320_0201, Ok(Change::Barrier), "a barrier"),
        (0x0121_0101, Ok(Change::Plain), "a bit of CACHE_CTRL"),
        (0x0320_0101, Ok(Change::Flush), "a flush"),
        (0x0221_0101, Ok(Change::CacheOff), "the cache is off"),
        (0x0363_0101, refused, "no field at 99"),
    ];
    for (argument, change, why) in rows {
        assert!(rt; switches(&mut csd, argument, change), "{why}");
    }
    csd.power_off();
    assert!(rt; has_value(&csd, Field::BarrierCtrl, 0));
}

#[test]
fn a_field_is_named(rt: HostRuntime) {
    assert_eq!(rt; Field::CacheSize.index(), 249);
    assert_eq!(rt; Field::CacheSize.name(), "CACHE_SIZE");
    assert_eq!(rt; Field::CacheSize.width(), 4);
}
