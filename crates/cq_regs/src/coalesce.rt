ghost use Rattle.std.specs.Prelude.{◌≡◌, if◌then◌else◌};
ghost use Rattle.cq_regs.specs.Coalesce.{counted, ic_word, ic_written, one_more, reaches, restarted, ticked};

use crate::slots::is_set;
use cq_words::bits;

/// Interrupt coalescing: completed tasks that ask for no notice of their own are counted, and a notice is given when the
/// counter or the timer reaches its bound (CQHCI_IC of the Linux driver).
#[derive(Clone, Copy, Debug, PartialEq, Eq, Default)]
pub struct Coalescing {
    /// Whether tasks are counted (CQHCI_IC_ENABLE).
    pub enabled: bool,
    /// The number of tasks after which a notice is given, at most 31; 0 for none (CQHCI_IC_ICCTH).
    pub threshold: u8,
    /// The ticks of the timer after which a notice is given, at most 127; 0 for none (CQHCI_IC_ICTOVAL).
    pub timeout: u8,
    /// The tasks that were counted, 255 for more.
    pub counter: u8,
    /// The ticks while the counter was not 0, 255 for more.
    pub timer: u8,
}

impl Coalescing {
    /// The register as it reads.
    pub(crate) fn word(self) -> u32
        ensures { result ≡ ic_word self }
    {
        let flags = u32::from(self.enabled) * 0x8000_0000
            + u32::from(self.counter != 0) * 0x0010_0000;
        flags + u32::from(self.threshold) * 0x100 + u32::from(self.timeout)
    }

    /// What a write of the register leaves.
    pub(crate) fn written(self, value: u32) -> Coalescing
        ensures { result ≡ ic_written self value }
    {
        let threshold = bits(u64::from(value), 8, 5) as u8;
        let timeout = bits(u64::from(value), 0, 7) as u8;
        let anew = is_set(value, 16);
        Coalescing {
            enabled: is_set(value, 31),
            threshold: pick(is_set(value, 15), threshold, self.threshold),
            timeout: pick(is_set(value, 7), timeout, self.timeout),
            counter: pick(anew, 0, self.counter),
            timer: pick(anew, 0, self.timer),
        }
    }

    /// One task more is counted.
    pub(crate) fn counted(self) -> Coalescing
        ensures { result ≡ counted self }
    {
        Coalescing {
            counter: one_more(self.counter),
            ..self
        }
    }

    /// A tick of the timer, which runs while the counter is not 0.
    pub(crate) fn ticked(self) -> Coalescing
        ensures { result ≡ ticked self }
    {
        if self.counter == 0 {
            return self;
        }
        Coalescing {
            timer: one_more(self.timer),
            ..self
        }
    }

    /// Whether the counter has come to its threshold.
    pub(crate) fn is_counter_due(self) -> bool
        ensures { result ≡ reaches self.counter self.threshold }
    {
        reaches(self.counter, self.threshold)
    }

    /// Whether the timer has come to its timeout.
    pub(crate) fn is_timer_due(self) -> bool
        ensures { result ≡ reaches self.timer self.timeout }
    {
        reaches(self.timer, self.timeout)
    }

    /// Counter and timer begin anew.
    pub(crate) fn restarted(self) -> Coalescing
        ensures { result ≡ restarted self }
    {
        Coalescing {
            counter: 0,
            timer: 0,
            ..self
        }
    }
}

fn pick(fresh: bool, new: u8, old: u8) -> u8
    ensures { result ≡ (if fresh then new else old) }
{
    if fresh { new } else { old }
}

fn one_more(number: u8) -> u8
    ensures { result ≡ one_more number }
{
    number.saturating_add(1)
}

fn reaches(number: u8, bound: u8) -> bool
    ensures { result ≡ reaches number bound }
{
    bound != 0 && bound <= number
}
