ghost use Rattle.std.specs.Prelude.{◌≡◌, ◌≤◌, ◌∷◌, length, drop};
ghost use Rattle.aw_cell.specs.CellText.{four_digits, size_text, number_text, cell_text, with_front};

use crate::cell::Cell;
use crate::number::Number;
use itoa::{Buffer, write_digits};

/// Writes bytes to the front of a buffer, and tells how many they are.
fn put(into: &mut [u8], bytes: &[u8]) -> usize
    requires { length bytes.now ≤ length into.old }
    ensures written { into.new ≡ with_front bytes.now into.old }
    ensures len { result ≡ length bytes.now }
{
    into[..bytes.len()].copy_from_slice(bytes);
    bytes.len()
}

/// A point and the last four digits of a number.
fn decimals(number: u64) -> [u8; 5]
    ensures { result ≡ 46 ∷ four_digits number }
{
    [
        b'.',
        b'0' + (number / 1000 % 10) as u8,
        b'0' + (number / 100 % 10) as u8,
        b'0' + (number / 10 % 10) as u8,
        b'0' + (number % 10) as u8,
    ]
}

/// Writes so many ten-thousandths to the end of a buffer, and tells where they begin.
fn write_size(size: u64, buffer: &mut [u8; 20]) -> usize
    requires { size ≤ 999999999999999999 }
    ensures written { drop result buffer.new ≡ size_text size }
    ensures place { (1 ≤ result) × (result ≤ 20) }
{
    buffer[15..].copy_from_slice(&decimals(size));
    write_digits(size / 10_000, buffer, 15)
}

/// Writes a NUMBER to the end of a buffer, and tells where it begins.
fn write_back(number: &Number, buffer: &mut [u8; 20]) -> usize
    ensures written { drop result buffer.new ≡ number_text number.now }
    ensures place { result ≤ 20 }
{
    let units = number.units();
    let start = write_size(units.unsigned_abs(), buffer);
    if units >= 0 {
        return start;
    }
    buffer[start - 1] = b'-';
    start - 1
}

fn put_number(into: &mut [u8], number: &Number) -> usize
    requires { 20 ≤ length into.old }
    ensures written { into.new ≡ with_front (number_text number.now) into.old }
    ensures len { result ≡ length (number_text number.now) }
{
    let mut buffer = [0; 20];
    let start = write_back(number, &mut buffer);
    put(into, &buffer[start..])
}

impl Number {
    /// Writes its canonical text, of at most 20 bytes, to the front of the buffer, and tells how
    /// many bytes that are. The others stay as they were (docs/LANGUAGE.md, "Texts of cells").
    pub fn write(&self, into: &mut [u8; 20]) -> usize
        ensures written { into.new ≡ with_front (number_text self.now) into.old }
        ensures len { result ≡ length (number_text self.now) }
    {
        put_number(into, self)
    }
}

impl Cell {
    /// Writes its text, of at most 64 bytes, to the front of the buffer, and tells how many bytes
    /// that are. The others stay as they were (docs/LANGUAGE.md, "Texts of cells").
    pub fn write(&self, into: &mut [u8; 64]) -> usize
        ensures written { into.new ≡ with_front (cell_text self.now) into.old }
        ensures len { result ≡ length (cell_text self.now) }
    {
        match self {
            Cell::Na => put(into, b"NA"),
            Cell::Num(number) => put_number(into, number),
            Cell::Int(integer) => put(into, Buffer::new().format(*integer).as_bytes()),
            Cell::Text(text) => put(into, text.bytes()),
            Cell::Bool(true) => put(into, b"YES"),
            Cell::Bool(false) => put(into, b"NO"),
            Cell::Slot(slot) => put(into, Buffer::new().format(*slot).as_bytes()),
        }
    }
}
