// The table of the fields (JESD84-B51, section 7.4). Linux has the names of those that it uses in include/linux/mmc/mmc.h, as
// EXT_CSD_CMDQ_MODE_EN, EXT_CSD_FLUSH_CACHE and EXT_CSD_CACHE_CTRL.
ghost use Rattle.std.specs.Prelude.{◌≡◌, ◌<◌};
ghost use Rattle.ext_csd.specs.Table.{place, row_of, name_of};

/// What a field reads as.
#[derive(Clone, Copy, Debug)]
pub enum Reading {
    /// The same number always.
    Fixed(u32),
    /// 1 while command queueing is on.
    CommandQueue,
    /// 1 while barriers are on.
    Barrier,
    /// 1 while the cache is on.
    Cache,
    /// The sectors of the card.
    Sectors,
    /// The size of the cache, in units of 1,024 bits.
    CacheSize,
    /// The tasks that the queue holds, less one.
    QueueDepth,
}

/// A row of the table: the first byte of the field, how many bytes it has, what it reads as, and whether a SWITCH may
/// write it.
#[derive(Clone, Copy, Debug)]
pub struct Row {
    pub index: u16,
    pub width: u8,
    pub reads: Reading,
    pub writable: bool,
}

/// A field of the extended CSD, in the order of the table.
#[derive(Clone, Copy, Debug, PartialEq, Eq)]
pub enum Field {
    CmdqModeEn,
    BarrierCtrl,
    FlushCache,
    CacheCtrl,
    DataSectorSize,
    UseNativeSector,
    NativeSectorSize,
    WrRelParam,
    WrRelSet,
    ExtCsdRev,
    SecCount,
    RelWrSecC,
    CacheFlushPolicy,
    CacheSize,
    CmdqDepth,
    CmdqSupport,
    BarrierSupport,
}

/// The names, in the order of the table.
pub const NAMES: [&str; 17] = [
    "CMDQ_MODE_EN",
    "BARRIER_CTRL",
    "FLUSH_CACHE",
    "CACHE_CTRL",
    "DATA_SECTOR_SIZE",
    "USE_NATIVE_SECTOR",
    "NATIVE_SECTOR_SIZE",
    "WR_REL_PARAM",
    "WR_REL_SET",
    "EXT_CSD_REV",
    "SEC_COUNT",
    "REL_WR_SEC_C",
    "CACHE_FLUSH_POLICY",
    "CACHE_SIZE",
    "CMDQ_DEPTH",
    "CMDQ_SUPPORT",
    "BARRIER_SUPPORT",
];

/// The table, a row for each field.
pub const FIELDS: [Row; 17] = [
    Row {
        index: 15,
        width: 1,
        reads: Reading::CommandQueue,
        writable: true,
    },
    Row {
        index: 31,
        width: 1,
        reads: Reading::Barrier,
        writable: true,
    },
    Row {
        index: 32,
        width: 1,
        reads: Reading::Fixed(0),
        writable: true,
    },
    Row {
        index: 33,
        width: 1,
        reads: Reading::Cache,
        writable: true,
    },
    Row {
        index: 61,
        width: 1,
        reads: Reading::Fixed(0),
        writable: false,
    },
    Row {
        index: 62,
        width: 1,
        reads: Reading::Fixed(0),
        writable: false,
    },
    Row {
        index: 63,
        width: 1,
        reads: Reading::Fixed(0),
        writable: false,
    },
    Row {
        index: 166,
        width: 1,
        reads: Reading::Fixed(4),
        writable: false,
    },
    Row {
        index: 167,
        width: 1,
        reads: Reading::Fixed(0),
        writable: false,
    },
    Row {
        index: 192,
        width: 1,
        reads: Reading::Fixed(8),
        writable: false,
    },
    Row {
        index: 212,
        width: 4,
        reads: Reading::Sectors,
        writable: false,
    },
    Row {
        index: 222,
        width: 1,
        reads: Reading::Fixed(1),
        writable: false,
    },
    Row {
        index: 240,
        width: 1,
        reads: Reading::Fixed(0),
        writable: false,
    },
    Row {
        index: 249,
        width: 4,
        reads: Reading::CacheSize,
        writable: false,
    },
    Row {
        index: 307,
        width: 1,
        reads: Reading::QueueDepth,
        writable: false,
    },
    Row {
        index: 308,
        width: 1,
        reads: Reading::Fixed(1),
        writable: false,
    },
    Row {
        index: 486,
        width: 1,
        reads: Reading::Fixed(1),
        writable: false,
    },
];

impl Field {
    /// Every field, in the order of the table.
    pub const ALL: [Field; 17] = [
        Field::CmdqModeEn,
        Field::BarrierCtrl,
        Field::FlushCache,
        Field::CacheCtrl,
        Field::DataSectorSize,
        Field::UseNativeSector,
        Field::NativeSectorSize,
        Field::WrRelParam,
        Field::WrRelSet,
        Field::ExtCsdRev,
        Field::SecCount,
        Field::RelWrSecC,
        Field::CacheFlushPolicy,
        Field::CacheSize,
        Field::CmdqDepth,
        Field::CmdqSupport,
        Field::BarrierSupport,
    ];

    /// The row of the field.
    #[tactic(auto, unfolding(crate::specs::Table::row_of))]
    pub fn row(self) -> Row
        ensures { result ≡ row_of self }
    {
        FIELDS[self.place()]
    }

    /// The first byte of the field.
    pub fn index(self) -> u16
        ensures { result ≡ (row_of self).index }
    {
        self.row().index
    }

    /// The bytes of the field. The lowest comes first.
    pub fn width(self) -> u8
        ensures { result ≡ (row_of self).width }
    {
        self.row().width
    }

    /// The name of the field in the standard.
    #[tactic(auto, unfolding(crate::specs::Table::name_of))]
    pub fn name(self) -> &'static str
        ensures { result.now ≡ name_of self }
    {
        NAMES[self.place()]
    }

    // The place of the field in the table.
    fn place(self) -> usize
        ensures is { result ≡ place self }
        ensures within { result < 17 }
    {
        self as usize
    }
}
