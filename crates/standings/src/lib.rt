// The standing of a descriptor in a transaction, and the table of standings: a method for each of its
// columns.
#![tactic(auto)]

ghost use Rattle.std.specs.Prelude.{◌≡◌, ◌+◌, ◌≤◌};
ghost use Rattle.limits.specs.Limits.{file_bytes};
ghost use Rattle.standings.specs.Table.{after_seek, after_write, after_read, pointer_settles, read_settles};
ghost use Rattle.standings.specs.Table.{advance, settled, offset_of, write_place, is_touched, final_offset};
ghost use Rattle.standings.specs.Table.{is_known, may_wait, place_number};

// Paper 01's five standings. Each carries the numbers named there and no others.
#[derive(Clone, Copy, PartialEq, Eq)]
pub enum Standing {
    Untouched,
    Placed(u16),
    Deferred(u16),
    Moved { advance: u16, offset: u16 },
    Known(u16),
}

// Where a write lies: at a place of its file or, while the place is unknown, after the advance before it.
#[derive(Clone, Copy, PartialEq, Eq)]
pub enum Place {
    At(u16),
    After(u16),
}

impl Standing {
    #[tactic(auto, unfolding(crate::specs::Table::after_seek))]
    pub fn after_seek(self, v: u16) -> Standing
        ensures { result ≡ after_seek v self }
    {
        match self {
            Standing::Untouched | Standing::Placed(_) => Standing::Placed(v),
            Standing::Deferred(advance) | Standing::Moved { advance, .. } => Standing::Moved {
                advance,
                offset: v,
            },
            Standing::Known(_) => Standing::Known(v),
        }
    }

    #[tactic(auto, unfolding(crate::specs::Table::after_write, crate::specs::Table::write_place))]
    pub fn after_write(self, n: u16) -> Standing
        requires { place_number (write_place self) + n ≤ file_bytes }
        ensures { result ≡ after_write n self }
    {
        match self {
            Standing::Untouched => Standing::Deferred(n),
            Standing::Placed(offset) => Standing::Placed(offset + n),
            Standing::Deferred(advance) => Standing::Deferred(advance + n),
            Standing::Moved { advance, offset } => Standing::Moved {
                advance,
                offset: offset + n,
            },
            Standing::Known(offset) => Standing::Known(offset + n),
        }
    }

    #[tactic(auto, unfolding(crate::specs::Table::after_read))]
    pub fn after_read(self, n: u16) -> Standing
        requires { offset_of self + n ≤ file_bytes }
        ensures { result ≡ after_read n self }
    {
        match self {
            Standing::Untouched | Standing::Deferred(_) => self,
            Standing::Placed(offset) => Standing::Placed(offset + n),
            Standing::Moved { advance, offset } => Standing::Moved {
                advance,
                offset: offset + n,
            },
            Standing::Known(offset) => Standing::Known(offset + n),
        }
    }

    // The standing settled at committed offset c.
    #[tactic(auto, unfolding(crate::specs::Table::settled))]
    pub fn settled(self, c: u16) -> Standing
        requires { c + advance self ≤ file_bytes }
        ensures { result ≡ settled c self }
    {
        match self {
            Standing::Untouched => Standing::Known(c),
            Standing::Deferred(advance) => Standing::Known(c + advance),
            Standing::Moved { offset, .. } => Standing::Known(offset),
            Standing::Placed(_) | Standing::Known(_) => self,
        }
    }

    // Where a write lies.
    #[tactic(auto, unfolding(crate::specs::Table::write_place))]
    pub fn write_place(self) -> Place
        ensures { result ≡ write_place self }
    {
        match self {
            Standing::Untouched => Place::After(0),
            Standing::Deferred(advance) => Place::After(advance),
            Standing::Placed(offset) | Standing::Moved { offset, .. } | Standing::Known(offset) =>
                Place::At(offset),
        }
    }

    pub fn pointer_settles(self) -> bool
        ensures { result ≡ pointer_settles self }
    {
        matches!(self, Standing::Untouched | Standing::Deferred(_))
    }

    // of_file: it is a descriptor of the file that is read; is_it: it is the descriptor that is read through.
    pub fn read_settles(self, of_file: bool, is_it: bool) -> bool
        ensures { result ≡ read_settles of_file is_it self }
    {
        match self {
            Standing::Untouched => is_it,
            Standing::Deferred(_) | Standing::Moved { .. } => of_file,
            Standing::Placed(_) | Standing::Known(_) => false,
        }
    }

    // The advance that it carries; 0 where it carries none.
    pub fn advance(self) -> u16
        ensures { result ≡ advance self }
    {
        match self {
            Standing::Deferred(advance) | Standing::Moved { advance, .. } => advance,
            Standing::Untouched | Standing::Placed(_) | Standing::Known(_) => 0,
        }
    }

    // The offset that it carries; 0 where it carries none.
    pub fn offset(self) -> u16
        ensures { result ≡ offset_of self }
    {
        match self {
            Standing::Placed(offset) | Standing::Moved { offset, .. } | Standing::Known(offset) =>
                offset,
            Standing::Untouched | Standing::Deferred(_) => 0,
        }
    }

    pub fn is_touched(self) -> bool
        ensures { result ≡ is_touched self }
    {
        !matches!(self, Standing::Untouched)
    }

    // The offset that a commit sets, from committed offset c.
    #[tactic(auto, unfolding(crate::specs::Table::final_offset))]
    pub fn final_offset(self, c: u16) -> u16
        requires { c + advance self ≤ file_bytes }
        ensures { result ≡ final_offset c self }
    {
        match self {
            Standing::Untouched => c,
            Standing::Deferred(advance) => c + advance,
            Standing::Placed(offset) | Standing::Moved { offset, .. } | Standing::Known(offset) =>
                offset,
        }
    }

    pub fn is_known(self) -> bool
        ensures { result ≡ is_known self }
    {
        matches!(self, Standing::Known(_))
    }

    // Whether a write record without a place may stand under it.
    pub fn may_wait(self) -> bool
        ensures { result ≡ may_wait self }
    {
        matches!(self, Standing::Deferred(_) | Standing::Moved { .. })
    }
}

impl Place {
    // The place, or the advance.
    pub fn place_number(self) -> u16
        ensures { result ≡ place_number self }
    {
        match self {
            Place::At(n) | Place::After(n) => n,
        }
    }
}
