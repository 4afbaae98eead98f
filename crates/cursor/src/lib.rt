// What stands next in a file, and the bytes behind it?
#![tactic(auto)]

ghost use Rattle.std.specs.Prelude.{◌≡◌, List, ℕ, ◌*◌, ◌≤◌, pos, length, take, map, IfOk};
ghost use Rattle.laws.specs.Lists.{parted, padded};
ghost use Rattle.meaning.specs.File.{little, signed, part, fields_next};
ghost use Rattle.cursor.specs.Fields.{got_of, field_next};

use refusal::Refusal;

// A form of number: how many bytes it has, and which number they say.
pub trait Form {
    type Number: Copy;

    ghost size: { ℕ };

    ghost of_bytes: { List ℕ → Self.Number };

    fn size() -> usize
        ensures { result ≡ size };

    fn of_bytes(bytes: &[u8]) -> Self::Number
        requires { length bytes.now ≡ size }
        ensures { result ≡ of_bytes bytes.now };
}

// A set of steps: one byte.
pub struct Set;

impl Form for Set {
    type Number = u16;

    ghost size = { 1 };

    ghost of_bytes = { little };

    fn size() -> usize {
        1
    }

    fn of_bytes(bytes: &[u8]) -> u16 {
        u16::from(bytes[0])
    }
}

// Two bytes with a sign.
pub struct Half;

impl Form for Half {
    type Number = i32;

    ghost size = { 2 };

    ghost of_bytes = { signed 2 };

    fn size() -> usize {
        2
    }

    fn of_bytes(bytes: &[u8]) -> i32 {
        i32::from(i16::from_le_bytes([bytes[0], bytes[1]]))
    }
}

// Four bytes with a sign.
pub struct Whole;

impl Form for Whole {
    type Number = i32;

    ghost size = { 4 };

    ghost of_bytes = { signed 4 };

    fn size() -> usize {
        4
    }

    fn of_bytes(bytes: &[u8]) -> i32 {
        i32::from_le_bytes([bytes[0], bytes[1], bytes[2], bytes[3]])
    }
}

// n numbers of one form, in the first places of an array that is blank behind them.
pub fn fields_of<F: Form, const N: usize>(
    n: usize,
    bytes: &[u8],
    blank: F::Number,
) -> [F::Number; N]
    requires few { n ≤ N }
    requires long { length bytes.now ≡ n * F.size }
    ensures fields { take n result ≡ map F.of_bytes (parted n F.size bytes.now) }
    ensures blank { result ≡ padded N blank (take n result) }
{
    let size = F::size();
    let mut fields = [blank; N];
    for k in 0..n {
        fields[k] = F::of_bytes(&bytes[k * size..k * size + size]);
    }
    fields
}

// The bytes of a file from some place on. Each method hands back what stands there, with the cursor behind it.
#[derive(Clone, Copy, Debug)]
pub struct Cursor<'a> {
    pub rest: &'a [u8],
}

impl<'a> Cursor<'a> {
    // N bytes as an array.
    pub fn array<const N: usize>(self) -> Result<([u8; N], Cursor<'a>), Refusal>
        ensures { got_of (λ x. x) result ≡ part N self.entry.rest.now }
    {
        match self.rest.split_first_chunk() {
            Some((field, rest)) => Ok((*field, Cursor { rest })),
            None => Err(Refusal::EndsEarly),
        }
    }

    // As many bytes as asked.
    pub fn bytes(self, count: usize) -> Result<(&'a [u8], Cursor<'a>), Refusal>
        ensures { got_of (λ x. x.now) result ≡ part count self.entry.rest.now }
    {
        match self.rest.split_at_checked(count) {
            Some((field, rest)) => Ok((field, Cursor { rest })),
            None => Err(Refusal::EndsEarly),
        }
    }

    pub fn byte(self) -> Result<(u8, Cursor<'a>), Refusal>
        ensures { got_of (λ x. x) result ≡ field_next 1 little self.entry.rest.now }
    {
        let ([field], next) = self.array::<1>()?;
        Ok((field, next))
    }

    pub fn short(self) -> Result<(u16, Cursor<'a>), Refusal>
        ensures { got_of (λ x. x) result ≡ field_next 2 little self.entry.rest.now }
    {
        let (field, next) = self.array()?;
        Ok((u16::from_le_bytes(field), next))
    }

    pub fn word(self) -> Result<(u32, Cursor<'a>), Refusal>
        ensures { got_of (λ x. x) result ≡ field_next 4 little self.entry.rest.now }
    {
        let (field, next) = self.array()?;
        Ok((u32::from_le_bytes(field), next))
    }

    // Two bytes with a sign.
    pub fn half(self) -> Result<(i32, Cursor<'a>), Refusal>
        ensures { got_of (λ x. x) result ≡ field_next 2 (signed 2) self.entry.rest.now }
    {
        let (field, next) = self.array()?;
        Ok((i32::from(i16::from_le_bytes(field)), next))
    }

    // Four bytes with a sign.
    pub fn int(self) -> Result<(i32, Cursor<'a>), Refusal>
        ensures { got_of (λ x. x) result ≡ field_next 4 (signed 4) self.entry.rest.now }
    {
        let (field, next) = self.array()?;
        Ok((i32::from_le_bytes(field), next))
    }

    // n step sets.
    pub fn sets<const N: usize>(self, n: usize) -> Result<([u16; N], Cursor<'a>), Refusal>
        requires { n ≤ N }
        ensures fields { got_of (take n) result ≡ fields_next n 1 little self.entry.rest.now }
        ensures blank { IfOk result (λ x. x.0 ≡ padded N 0 (take n x.0)) }
    {
        let (bytes, next) = self.bytes(n)?;
        Ok((fields_of::<Set, N>(n, bytes, 0), next))
    }

    // n weights.
    pub fn weights<const N: usize>(self, n: usize) -> Result<([i32; N], Cursor<'a>), Refusal>
        requires { n ≤ N }
        ensures fields { got_of (take n) result ≡ fields_next n 4 (signed 4) self.entry.rest.now }
        ensures blank { IfOk result (λ x. x.0 ≡ padded N (pos 0) (take n x.0)) }
    {
        let (bytes, next) = self.bytes(n * 4)?;
        Ok((fields_of::<Whole, N>(n, bytes, 0), next))
    }

    // n coefficients.
    pub fn coefs<const N: usize>(self, n: usize) -> Result<([i32; N], Cursor<'a>), Refusal>
        requires { n ≤ N }
        ensures fields { got_of (take n) result ≡ fields_next n 2 (signed 2) self.entry.rest.now }
        ensures blank { IfOk result (λ x. x.0 ≡ padded N (pos 0) (take n x.0)) }
    {
        let (bytes, next) = self.bytes(n * 2)?;
        Ok((fields_of::<Half, N>(n, bytes, 0), next))
    }
}
