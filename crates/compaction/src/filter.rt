// What a filter says of the records of a list: a port of `StreamFilter` in `compaction/stream.rs`.
ghost use Rattle.std.specs.Prelude.{◌≡◌, ℕ};
ghost use Rattle.compaction.specs.Fate.{FilterVerdict, Keep};
ghost use Rattle.compaction.specs.Turn.{meant, drops, replaces, kind_by};

use list::ValueType;

// What a filter says of a record.
#[derive(Clone, Copy)]
pub(crate) enum StreamFilterVerdict<'a> {
    Keep,
    Drop,
    Replace { kind: ValueType, value: &'a [u8] },
}

impl<'a> StreamFilterVerdict<'a> {
    pub(crate) fn drops(self) -> bool
        ensures { result ≡ drops (meant self.entry) }
    {
        matches!(self, StreamFilterVerdict::Drop)
    }

    pub(crate) fn replaces(self) -> bool
        ensures { result ≡ replaces (meant self.entry) }
    {
        matches!(self, StreamFilterVerdict::Replace { .. })
    }

    // A record's kind once it is asked.
    pub(crate) fn kind(self, old: ValueType) -> ValueType
        ensures { result ≡ kind_by (meant self.entry) old }
    {
        match self {
            StreamFilterVerdict::Keep | StreamFilterVerdict::Drop => old,
            StreamFilterVerdict::Replace { kind, .. } => kind,
        }
    }
}

// A filter, which is asked about a record by the record's number.
pub(crate) trait StreamFilter {
    // What it says of a record.
    ghost verdict_on: { Self → ℕ → FilterVerdict };

    // What must hold where it is asked about a record.
    ghost can_ask: { Self → ℕ → Type 0 };

    fn filter_item(&self, number: usize) -> StreamFilterVerdict<'_>
        requires { can_ask self.now number }
        ensures { meant result ≡ verdict_on self.now number };
}

// No filter: every record is kept.
#[derive(Clone, Copy)]
pub(crate) struct NoFilter;

impl StreamFilter for NoFilter {
    ghost verdict_on = { λ _ _. Keep };

    ghost can_ask = { λ _ _. Unit {0} };

    fn filter_item(&self, _number: usize) -> StreamFilterVerdict<'_> {
        StreamFilterVerdict::Keep
    }
}
