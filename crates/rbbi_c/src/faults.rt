//! Faults of rules, property files and tables, as they are reported to C.
use crate::codes;
use crate::copying::copy_front;
use rbbi_command::Place;

/// Where a fault stands, and how long its name is.
#[repr(C)]
#[derive(Clone, Copy)]
pub struct Fault {
    /// The number of bytes of its name.
    pub label: usize,
    /// Its line, from 1; 0 where it has none.
    pub row: u32,
    /// Its column, in characters from 1; 0 where it has none.
    pub column: u32,
    /// Its byte, from 0; 4,294,967,295 where it has none.
    pub byte: u32,
}

/// A byte that is none.
const NO_BYTE: u32 = u32::MAX;

impl Fault {
    ghost use Rattle.std.specs.Prelude.{◌≡◌, length};
    ghost use Rattle.rbbi_c.specs.Copying.{IsCopied};
    ghost use Rattle.rbbi_c.specs.Faults.{fault_at};

    /// A fault whose name has so many bytes, at a place.
    fn at(label: usize, place: Place) -> Fault
        ensures { result ≡ fault_at label place }
    {
        let (row, column, byte) = match place {
            Place::Whole => (0, 0, NO_BYTE),
            Place::Byte(at) => (0, 0, at),
            Place::Row(row) => (row, 0, NO_BYTE),
            Place::Within { row, column } => (row, column, NO_BYTE),
        };
        Fault {
            label,
            row,
            column,
            byte,
        }
    }

    /// Tells a fault: its name, as much of it as there is room for, and its place.
    pub(crate) fn tell(&mut self, label: &str, place: Place, room: &mut [u8]) -> u32
        ensures code { result ≡ 11 }
        ensures fault { self.new ≡ fault_at (length label.now) place }
        ensures name { IsCopied label.now room.old room.new }
    {
        *self = Fault::at(label.len(), place);
        copy_front(label.as_bytes(), room);
        codes::FAULT
    }
}
