//! One item of a minitransaction, and how it is split off the bytes of a record.

ghost use Rattle.std.specs.Prelude.{◌≡◌};
ghost use Rattle.std.specs.Option.{ok_or};
ghost use Rattle.model.specs.ItemFormat.{decode_item, span};
ghost use Rattle.model.specs.Ranges.{node_of, address_of, is_write};
ghost use Rattle.model.specs.declared.refusal.Refusal.TheVariants.{Malformed};
ghost use Rattle.records.specs.Kinds.{kind_number, kind_numbered, kind_of, data_of};
ghost use Rattle.records.specs.Meaning.{item_meaning, split_meaning};

use model::numbers::LONGEST_ITEM;
use model::refusal::Refusal;

/// The bytes of an item before its data: kind, node, address and length.
pub(crate) const FIELDS: usize = 5;

/// What is done with the bytes at an address.
#[derive(Clone, Copy, PartialEq, Eq, Debug)]
pub(crate) enum ItemKind {
    Compare = 1,
    Read = 2,
    Write = 3,
}

/// The first byte of an item in a record.
impl From<ItemKind> for u8 {
    ghost from_gives = { λ kind byte. byte ≡ kind_number kind };

    fn from(kind: ItemKind) -> u8 {
        kind as u8
    }
}

/// The kind that the first byte of an item stands for; a byte that stands for none is malformed.
// As for each enum with numbers, written out: an impl by a macro of our own is refused.
impl TryFrom<u8> for ItemKind {
    type Error = Refusal;

    ghost try_from_gives = { λ byte kind. kind ≡ ok_or (kind_numbered byte) Malformed };

    fn try_from(byte: u8) -> Result<ItemKind, Refusal> {
        match byte {
            1 => Ok(ItemKind::Compare),
            2 => Ok(ItemKind::Read),
            3 => Ok(ItemKind::Write),
            _ => Err(Refusal::Malformed),
        }
    }
}

/// What a minitransaction asks of one memory node. The data are the very bytes of the record.
#[derive(Clone, Copy, PartialEq, Eq, Debug)]
pub enum Item<'a> {
    /// The bytes that have to stand at the address, or nothing is done anywhere.
    Compare {
        node: u8,
        address: u16,
        data: &'a [u8],
    },
    /// So many bytes from the address on are read.
    Read {
        node: u8,
        address: u16,
        length: u8,
    },
    /// The bytes that are put at the address.
    Write {
        node: u8,
        address: u16,
        data: &'a [u8],
    },
}

impl<'a> Item<'a> {
    /// The node that it is for.
    pub fn node(&self) -> u8
        ensures { result ≡ node_of (item_meaning self.now) }
    {
        match self {
            Item::Compare { node, .. } | Item::Read { node, .. } | Item::Write { node, .. } =>
                *node,
        }
    }

    /// Where its range begins.
    pub fn address(&self) -> u16
        ensures { result ≡ address_of (item_meaning self.now) }
    {
        match self {
            Item::Compare { address, .. }
            | Item::Read { address, .. }
            | Item::Write { address, .. } => *address,
        }
    }

    /// How many bytes it compares, reads or writes.
    pub fn span(&self) -> usize
        ensures { result ≡ span (item_meaning self.now) }
    {
        match self {
            Item::Compare { data, .. } | Item::Write { data, .. } => data.len(),
            Item::Read { length, .. } => *length as usize,
        }
    }

    /// Whether it puts bytes.
    pub fn is_write(&self) -> bool
        ensures { result ≡ is_write (item_meaning self.now) }
    {
        matches!(self, Item::Write { .. })
    }

    /// What it does with its bytes.
    pub(crate) fn kind(&self) -> ItemKind
        ensures { result ≡ kind_of (item_meaning self.now) }
    {
        match self {
            Item::Compare { .. } => ItemKind::Compare,
            Item::Read { .. } => ItemKind::Read,
            Item::Write { .. } => ItemKind::Write,
        }
    }

    /// The bytes that a record has behind its fields: none for a read.
    pub(crate) fn data(&self) -> &'a [u8]
        ensures { result.now ≡ data_of (item_meaning self.now) }
    {
        match self {
            Item::Compare { data, .. } | Item::Write { data, .. } => data,
            Item::Read { .. } => &[],
        }
    }
}

/// The item at the start of some bytes, and the bytes behind it; none where there is no whole item.
pub fn split_item<'a>(bytes: &'a [u8]) -> Option<(Item<'a>, &'a [u8])>
    ensures { split_meaning result ≡ decode_item bytes.now }
{
    let (&[kind, node, high, low, length], rest) = bytes.split_first_chunk::<FIELDS>()?;
    let address = u16::from_be_bytes([high, low]);
    if !(1..=LONGEST_ITEM).contains(&length) {
        return None;
    }
    let kind = ItemKind::try_from(kind).ok()?;
    let held = if kind == ItemKind::Read {
        0
    } else {
        length as usize
    };
    let (data, after) = rest.split_at_checked(held)?;
    let item = match kind {
        ItemKind::Compare => Item::Compare {
            node,
            address,
            data,
        },
        ItemKind::Read => Item::Read {
            node,
            address,
            length,
        },
        ItemKind::Write => Item::Write {
            node,
            address,
            data,
        },
    };
    Some((item, after))
}
