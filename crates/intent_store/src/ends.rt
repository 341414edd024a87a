ghost use Rattle.std.specs.Prelude.{◌≡◌};

/// Why an image was not opened: the array failed, the power was cut, or its pages are no image.
#[derive(Clone, Copy, Debug, PartialEq, Eq)]
pub enum StartEnd {
    Flash,
    PowerLost,
    BadImage,
}

/// Why a call did not do what it was asked for: the array failed, or the power was cut or off.
#[derive(Clone, Copy, Debug, PartialEq, Eq)]
pub enum StoreEnd {
    Flash,
    PowerLost,
}

impl From<StoreEnd> for StartEnd {
    ghost use Rattle.intent_store.specs.Intent.{start_end};

    ghost from_gives = { λ end start. start ≡ start_end end };

    fn from(end: StoreEnd) -> Self {
        match end {
            StoreEnd::Flash => StartEnd::Flash,
            StoreEnd::PowerLost => StartEnd::PowerLost,
        }
    }
}
