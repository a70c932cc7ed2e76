// Flags, counts, rounds and readings.
ghost use Rattle.std.specs.Prelude.{refl};
ghost use Rattle.fields.specs.Codecs.{two_bytes};
ghost use Rattle.fields.specs.Layout.{flag, round, reading};

use crate::field::{Field, Read};
use pages::Reading;
use rounds::{Number, Round};

impl Field for bool {
    ghost codec = { flag };

    ghost SIZE = { 1 };

    ghost size_is = { refl };

    const SIZE: usize = 1;

    fn read(bytes: &[u8], at: usize) -> Read<bool> {
        Read {
            value: bytes[at] == 1,
            exact: bytes[at] <= 1,
        }
    }

    fn put(self, bytes: &mut [u8], at: usize) {
        words::put_u8(bytes, at, u8::from(self));
    }
}

impl Field for u16 {
    ghost codec = { two_bytes };

    ghost SIZE = { 2 };

    ghost size_is = { refl };

    const SIZE: usize = 2;

    fn read(bytes: &[u8], at: usize) -> Read<u16> {
        Read {
            value: words::get_u16(bytes, at),
            exact: true,
        }
    }

    fn put(self, bytes: &mut [u8], at: usize) {
        words::put_u16(bytes, at, self);
    }
}

impl Field for Reading {
    ghost codec = { reading };

    ghost SIZE = { 4 };

    ghost size_is = { refl };

    const SIZE: usize = 4;

    fn read(bytes: &[u8], at: usize) -> Read<Reading> {
        Read {
            value: Reading(words::get_u32(bytes, at)),
            exact: true,
        }
    }

    fn put(self, bytes: &mut [u8], at: usize) {
        words::put_u32(bytes, at, self.0);
    }
}

impl Field for Round {
    ghost codec = { round };

    ghost SIZE = { 4 };

    ghost size_is = { refl };

    const SIZE: usize = 4;

    fn read(bytes: &[u8], at: usize) -> Read<Round> {
        Read {
            value: Round {
                n: Number(words::get_u16(bytes, at)),
                c: bytes[at + 2],
                cf: bytes[at + 2 + 1],
            },
            exact: true,
        }
    }

    fn put(self, bytes: &mut [u8], at: usize) {
        words::put_u16(bytes, at, self.n.0);
        words::put_u8(bytes, at + 2, self.c);
        words::put_u8(bytes, at + 2 + 1, self.cf);
    }
}
