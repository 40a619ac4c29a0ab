// What stands in a call's arguments, read one field after the other, numbers low byte first.
use std::array;

// The bytes that are not yet read. Where too few are left a field reads 0 or no byte, and so does each after it: no caller shows that there
// are enough.
#[derive(Clone, Copy)]
pub struct Fields<'a> {
    rest: &'a [u8],
}

impl<'a> Fields<'a> {
    pub fn new(rest: &'a [u8]) -> Fields<'a> {
        Fields { rest }
    }

    pub fn take<const N: usize>(&mut self) -> [u8; N] {
        self.bytes(N).first_chunk().copied().unwrap_or([0; N])
    }

    // So many bytes.
    pub fn bytes(&mut self, count: usize) -> &'a [u8] {
        match self.rest.split_at_checked(count) {
            Some((field, rest)) => {
                self.rest = rest;
                field
            }
            None => {
                self.rest = &[];
                self.rest
            }
        }
    }

    // One for each width: no trait of std has `from_le_bytes`, one of ours would need four impls to save three lines, and the kit's `num_traits` is
    // a library for three lines.
    pub fn byte(&mut self) -> u8 {
        u8::from_le_bytes(self.take())
    }

    pub fn u16(&mut self) -> u16 {
        u16::from_le_bytes(self.take())
    }

    pub fn u32(&mut self) -> u32 {
        u32::from_le_bytes(self.take())
    }

    pub fn u64(&mut self) -> u64 {
        u64::from_le_bytes(self.take())
    }

    pub fn flag(&mut self) -> bool {
        self.byte() == 1
    }

    pub fn flags<const N: usize>(&mut self) -> [bool; N] {
        array::from_fn(|_| self.flag())
    }
}
