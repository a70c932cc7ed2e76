// What a field is: how a type of values stands in a fixed number of bytes.
ghost use Rattle.std.specs.Prelude.{ℕ, ◌≡◌, ◌+◌, ◌≤◌, length};
ghost use Rattle.words.specs.Bytes.{Spliced};
ghost use Rattle.fields.specs.Codecs.{Codec, Got};

// A field as it was read. The value stands beside the test, not under it: it is determined where the
// bytes are not exact too, and callers that know their bytes to be right use it with no test.
#[derive(Clone, Copy)]
pub struct Read<T> {
    pub value: T,
    pub exact: bool,
}

pub trait Field: Copy {
    ghost codec: { Codec Self };

    ghost SIZE: { ℕ };

    // The bytes of the field.
    const SIZE: usize;

    fn read(bytes: &[u8], at: usize) -> Read<Self>
        requires { at + SIZE ≤ length bytes.now }
        ensures { Got codec bytes.now at result.value result.exact };

    fn put(self, bytes: &mut [u8], at: usize)
        requires { at + SIZE ≤ length bytes.old }
        ensures { Spliced at (codec.put self) bytes.old bytes.new };

    ghost size_is: { SIZE ≡ codec.size };
}
