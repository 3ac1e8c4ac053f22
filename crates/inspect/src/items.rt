//! Items in words.

ghost use Rattle.std.specs.Prelude.{Some};
ghost use Rattle.records.specs.Meaning.{item_meaning};
ghost use Rattle.records.specs.Cursor.{items_meaning};
ghost use Rattle.inspect.specs.Words.{bytes_text, item_text, items_text};

use records::item::Item;
use records::items::Items;
use std::fmt;

/// Bytes in decimal, each behind a space.
#[derive(Clone, Copy)]
pub(crate) struct Decimals<'a>(pub(crate) &'a [u8]);

impl fmt::Display for Decimals<'_> {
    ghost output = { λ bytes. Some (bytes_text bytes.0.now) };

    fn fmt<W: fmt::Write>(&self, f: &mut fmt::Formatter<W>) -> fmt::Result {
        for byte in self.0 {
            write!(f, " {byte}")?;
        }
        Ok(())
    }
}

/// One item, a line.
#[derive(Clone, Copy)]
struct ItemLine<'a>(Item<'a>);

impl fmt::Display for ItemLine<'_> {
    ghost output = { λ line. Some (item_text (item_meaning line.0)) };

    fn fmt<W: fmt::Write>(&self, f: &mut fmt::Formatter<W>) -> fmt::Result {
        match self.0 {
            Item::Compare {
                node,
                address,
                data,
            }
            | Item::Write {
                node,
                address,
                data,
            } => {
                let deed = if self.0.is_write() {
                    "write"
                } else {
                    "compare"
                };
                writeln!(
                    f,
                    "  {deed} node {node}, address {address}:{}",
                    Decimals(data)
                )
            }
            Item::Read {
                node,
                address,
                length,
            } => writeln!(f, "  read node {node}, address {address}, length {length}"),
        }
    }
}

/// The items to come, a line each.
#[derive(Clone, Copy)]
pub(crate) struct ItemLines<'a>(pub(crate) Items<'a>);

impl fmt::Display for ItemLines<'_> {
    ghost output = { λ lines. Some (items_text (items_meaning lines.0)) };

    fn fmt<W: fmt::Write>(&self, f: &mut fmt::Formatter<W>) -> fmt::Result {
        for item in self.0 {
            write!(f, "{}", ItemLine(item))?;
        }
        Ok(())
    }
}
