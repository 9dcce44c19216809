// What a record says of its key: a port of `value_type.rs`.
ghost use Rattle.std.specs.Prelude.{◌≡◌};
ghost use Rattle.list.specs.ValueType.{tag_of, type_of, is_tombstone};

use crate::refusal::Refusal;

#[derive(Clone, Copy, Debug, PartialEq, Eq)]
pub enum ValueType {
    Value,
    Tombstone,
    WeakTombstone,
    Indirection,
}

// The type of a tag, if it has one.
impl TryFrom<u8> for ValueType {
    type Error = Refusal;

    ghost try_from_gives = { λ tag r. r ≡ type_of tag };

    fn try_from(tag: u8) -> Result<ValueType, Refusal> {
        match tag {
            0 => Ok(ValueType::Value),
            1 => Ok(ValueType::Tombstone),
            2 => Ok(ValueType::WeakTombstone),
            4 => Ok(ValueType::Indirection),
            _ => Err(Refusal::BadTag),
        }
    }
}

// The tag of a type.
impl From<ValueType> for u8 {
    ghost from_gives = { λ kind tag. tag ≡ tag_of kind };

    fn from(kind: ValueType) -> u8 {
        match kind {
            ValueType::Value => 0,
            ValueType::Tombstone => 1,
            ValueType::WeakTombstone => 2,
            ValueType::Indirection => 4,
        }
    }
}

impl ValueType {
    // Weak tombstones are tombstones too.
    pub fn is_tombstone(self) -> bool
        ensures { result ≡ is_tombstone self }
    {
        matches!(self, ValueType::Tombstone | ValueType::WeakTombstone)
    }
}
