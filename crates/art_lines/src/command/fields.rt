//! The fields of a line: a tenant, bytes, and signed numbers, read in place of what was there.
ghost use Rattle.std.specs.Prelude.{◌≡◌, ◌+◌, ◌/◌, ◌^◌, ◌<◌, ◌≤◌, length, take, drop, IsSome, true, FitsSigned};
ghost use Rattle.std.specs.Option.{ForSome};
ghost use Rattle.std.specs.Int.{from_be_bytes, to_be_bytes, w32, w64};
ghost use Rattle.art_bytes.specs.Laws.{pair_key};
ghost use Rattle.art_lines.specs.Keys.{full_key as full_key_of};
ghost use Rattle.art_lines.specs.Reading.{tenant_in, number_in, bytes_in};
ghost use Rattle.art_lines.specs.InPlace.{IsRead};

mod look_up;

use crate::command::decimals::{parse_number, parse_tenant};
use arrayvec::ArrayVec;
use art_bytes::FixedBytes;

/// The bytes of a tenant, which stand before those of its keys.
const TENANT_LEN: usize = 4;

/// The longest field of bytes, which `get 0 k` may have.
pub const FIELD: usize = 2045;

/// The longest full key: a tenant's bytes and then a field of bytes.
const FULL_KEY: usize = 2049;

/// The bytes of a tenant and of a number, under which a value stands.
pub const NUMBER_KEY: usize = 12;

/// What stands after a word. Fields are decoded where they stay, and each keeps what it had until the next of its kind
/// is read. A field that is refused may hold anything after it, and all others stay.
///
/// A key stands after the four bytes of its tenant, the highest first, so the full key is there without a copy. So does
/// the upper one of two keys, whose buffer is made when the first one is read: no other line has to clear it.
#[derive(Drop)]
pub struct Fields {
    full_key: ArrayVec<u8, FULL_KEY>,
    upper: Option<ArrayVec<u8, FULL_KEY>>,
    value: ArrayVec<u8, FIELD>,
    number: i64,
    bound: i64,
    ghost front: { 4 ≤ length full_key.items },
    ghost same_front: { ForSome upper (λ u. (4 ≤ length u.items) × (take 4 u.items ≡ take 4 full_key.items)) },
}

impl Fields {
    ghost use Rattle.art_lines.specs.Parsed.{tenant_in_place, key_in_place, upper_in_place, value_in_place};
    ghost use Rattle.art_lines.specs.Parsed.{number_in_place, bound_in_place, all_in_place};

    /// Room for fields. What stands in it does not matter.
    pub fn new() -> Fields {
        let mut full_key = ArrayVec::new();
        let _ = full_key.try_extend_from_slice(&[0; TENANT_LEN]);
        Fields {
            full_key,
            upper: None,
            value: ArrayVec::new(),
            number: 0,
            bound: 0,
        }
    }

    /// Returns the tenant that was read last, or 0 where none was yet.
    #[inline]
    pub fn tenant(&self) -> u32
        ensures { result ≡ tenant_in_place self.now }
    {
        let full = self.full_key.as_slice();
        u32::from_be_bytes([full[0], full[1], full[2], full[3]])
    }

    /// Returns the key that was read last, without its tenant: 2,045 bytes at most, or none where none was read yet.
    #[inline]
    pub fn key(&self) -> &[u8]
        ensures value { result.now ≡ key_in_place self.now }
        ensures short { length result.now ≤ 2045 }
    {
        &self.full_key.as_slice()[TENANT_LEN..]
    }

    /// Returns the tenant's four bytes, and then the key.
    #[inline]
    pub fn full_key(&self) -> &[u8]
        ensures value { result.now ≡ full_key_of (tenant_in_place self.now) (key_in_place self.now) }
        ensures tenant { tenant_in_place self.now < 2 ^ 32 }
        ensures short { length result.now ≤ 2049 }
    {
        split_of(self.full_key.as_slice())
    }

    /// Returns the value that was read last: 2,045 bytes at most, or none where none was read yet.
    #[inline]
    pub fn value(&self) -> &[u8]
        ensures value { result.now ≡ value_in_place self.now }
        ensures short { length result.now ≤ 2045 }
    {
        self.value.as_slice()
    }

    /// Returns the upper one of two keys, or no bytes where none was read yet.
    ///
    /// ```
    /// use art_lines::command::{fields::Fields, read_line};
    /// let mut fields = Fields::new();
    /// assert!(rt; read_line(b"span 7 0a 0b0c", &mut fields).is_some());
    /// assert_eq!(rt; (fields.key(), fields.upper()), ([10].as_slice(), [11, 12].as_slice()));
    /// ```
    #[inline]
    pub fn upper(&self) -> &[u8]
        ensures value { result.now ≡ upper_in_place self.now }
        ensures short { length result.now ≤ 2045 }
    {
        match &self.upper {
            Some(upper) => &upper.as_slice()[TENANT_LEN..],
            None => &[],
        }
    }

    /// Returns the tenant's four bytes, and then the upper one of two keys.
    ///
    /// ```
    /// use art_lines::command::{fields::Fields, read_line};
    /// let mut fields = Fields::new();
    /// assert!(rt; read_line(b"span 7 0a 0b0c", &mut fields).is_some());
    /// assert_eq!(rt; fields.full_upper(), [0, 0, 0, 7, 11, 12].as_slice());
    /// ```
    #[inline]
    pub fn full_upper(&self) -> &[u8]
        ensures { result.now ≡ full_key_of (tenant_in_place self.now) (upper_in_place self.now) }
    {
        match &self.upper {
            Some(upper) => split_of(upper.as_slice()),
            None => split_of(&self.full_key.as_slice()[..TENANT_LEN]),
        }
    }

    /// Returns the number that was read last, or the lower one of two, or 0 where none was read yet.
    #[inline]
    pub fn number(&self) -> i64
        ensures { result ≡ number_in_place self.now }
    {
        self.number
    }

    /// Returns the upper one of two numbers.
    #[inline]
    pub fn bound(&self) -> i64
        ensures { result ≡ bound_in_place self.now }
    {
        self.bound
    }

    /// Returns the bytes of the tenant and of the number, under which a value stands.
    #[inline]
    pub fn number_key(&self) -> [u8; NUMBER_KEY]
        ensures value { result ≡ pair_key (tenant_in_place self.now, number_in_place self.now) }
        ensures tenant { tenant_in_place self.now < 2 ^ 32 }
        ensures number { FitsSigned w64 (number_in_place self.now) }
    {
        key_of_number(self.tenant(), self.number)
    }

    /// Returns the bytes of the tenant and of the upper one of two numbers.
    pub fn bound_key(&self) -> [u8; NUMBER_KEY]
        ensures value { result ≡ pair_key (tenant_in_place self.now, bound_in_place self.now) }
        ensures bound { FitsSigned w64 (bound_in_place self.now) }
    {
        key_of_number(self.tenant(), self.bound)
    }

    /// Reads the tenant. It returns false if the field is read as none.
    #[inline(always)]
    pub fn read_tenant(&mut self, field: &[u8]) -> bool
        ensures read { IsRead result (tenant_in_place self.new) (tenant_in field.now) }
        ensures kept { all_in_place self.new ≡ record (all_in_place self.old) { tenant = tenant_in_place self.new } }
        ensures some { result ≡ true → 0 < length field.now }
    {
        let Some(tenant) = parse_tenant(field) else {
            return false;
        };
        self.set_tenant(tenant);
        true
    }

    /// Sets the tenant.
    #[inline(always)]
    pub(crate) fn set_tenant(&mut self, tenant: u32)
        ensures { all_in_place self.new ≡ record (all_in_place self.old) { tenant = tenant } }
    {
        set_front(&mut self.full_key, tenant);
        if let Some(upper) = &mut self.upper {
            set_front(upper, tenant);
        }
    }

    /// Sets the number.
    #[inline(always)]
    pub(crate) fn set_number(&mut self, number: i64)
        ensures { all_in_place self.new ≡ record (all_in_place self.old) { number = number } }
    {
        self.number = number;
    }

    /// Reads the key, after the tenant that is there. It returns false if the field is read as no bytes.
    #[inline(always)]
    pub fn read_key(&mut self, field: &[u8]) -> bool
        requires { length field.now ≤ 4090 }
        ensures read { IsRead result (key_in_place self.new) (bytes_in field.now) }
        ensures kept { all_in_place self.new ≡ record (all_in_place self.old) { key = key_in_place self.new } }
    {
        decode_bytes(field, &mut self.full_key, TENANT_LEN)
    }

    /// Reads the value. It returns false if the field is read as no bytes.
    pub fn read_value(&mut self, field: &[u8]) -> bool
        requires { length field.now ≤ 4090 }
        ensures read { IsRead result (value_in_place self.new) (bytes_in field.now) }
        ensures kept { all_in_place self.new ≡ record (all_in_place self.old) { value = value_in_place self.new } }
    {
        decode_bytes(field, &mut self.value, 0)
    }

    /// Reads the upper one of two keys, after the tenant that is there. It returns false if the field is read as no
    /// bytes.
    ///
    /// ```
    /// use art_lines::command::fields::Fields;
    /// let mut fields = Fields::new();
    /// assert!(rt; fields.read_upper(b"0b0c"));
    /// assert_eq!(rt; fields.upper(), [11, 12].as_slice());
    /// assert!(rt; !fields.read_upper(b"0b0"));
    /// ```
    pub fn read_upper(&mut self, field: &[u8]) -> bool
        requires { length field.now ≤ 4090 }
        ensures read { IsRead result (upper_in_place self.new) (bytes_in field.now) }
        ensures kept { all_in_place self.new ≡ record (all_in_place self.old) { upper = upper_in_place self.new } }
    {
        if let Some(upper) = &mut self.upper {
            return decode_bytes(field, upper, TENANT_LEN);
        }
        let mut upper = room_after(self.full_key.as_slice());
        let is_read = decode_bytes(field, &mut upper, TENANT_LEN);
        self.upper = Some(upper);
        is_read
    }

    /// Reads the number. It returns false if the field is read as none.
    pub fn read_number(&mut self, field: &[u8]) -> bool
        ensures read { IsRead result (number_in_place self.new) (number_in field.now) }
        ensures kept { all_in_place self.new ≡ record (all_in_place self.old) { number = number_in_place self.new } }
    {
        let Some(number) = parse_number(field) else {
            return false;
        };
        self.number = number;
        true
    }

    /// Reads the upper one of two numbers. It returns false if the field is read as none.
    pub fn read_bound(&mut self, field: &[u8]) -> bool
        ensures read { IsRead result (bound_in_place self.new) (number_in field.now) }
        ensures kept { all_in_place self.new ≡ record (all_in_place self.old) { bound = bound_in_place self.new } }
    {
        let Some(bound) = parse_number(field) else {
            return false;
        };
        self.bound = bound;
        true
    }
}

/// Sets the first four bytes to those of a tenant.
#[inline(always)]
fn set_front(bytes: &mut ArrayVec<u8, FULL_KEY>, tenant: u32)
    requires { 4 ≤ length bytes.old.items }
    ensures front { take 4 bytes.new.items ≡ to_be_bytes w32 tenant }
    ensures kept { drop 4 bytes.new.items ≡ drop 4 bytes.old.items }
    ensures length { length bytes.new.items ≡ length bytes.old.items }
{
    if let Some(front) = bytes.as_mut_slice().first_chunk_mut() {
        *front = tenant.to_be_bytes();
    }
}

/// Room for a key after the tenant's bytes that these begin with.
fn room_after(full: &[u8]) -> ArrayVec<u8, FULL_KEY>
    requires { 4 ≤ length full.now }
    ensures { result.items ≡ take 4 full.now }
{
    let mut bytes = ArrayVec::new();
    let _ = bytes.try_extend_from_slice(&full[..TENANT_LEN]);
    bytes
}

/// Four bytes of the tenant, the highest first, and eight of the number with its top bit flipped. They ascend by tenant
/// and then by number.
fn key_of_number(tenant: u32, number: i64) -> [u8; NUMBER_KEY]
    ensures value { result ≡ pair_key (tenant, number) }
    ensures tenant { tenant < 2 ^ 32 }
    ensures number { FitsSigned w64 number }
{
    let (front, rest) = (tenant.to_array(), number.to_array());
    let mut key = [0; NUMBER_KEY];
    key[..TENANT_LEN].copy_from_slice(&front);
    key[TENANT_LEN..].copy_from_slice(&rest);
    key
}

/// A law, which does nothing: bytes are the full key of the tenant that stands at their front, and of the key after it.
fn split_of(full: &[u8]) -> &[u8]
    requires { 4 ≤ length full.now }
    ensures same { result.now ≡ full.now }
    ensures split { result.now ≡ full_key_of (from_be_bytes w32 (take 4 full.now)) (drop 4 full.now) }
    ensures tenant { from_be_bytes w32 (take 4 full.now) < 2 ^ 32 }
{
    full
}

/// Decodes the bytes that the field is read as, after some at the front, which stay. Returns false if the field is read
/// as no bytes.
#[inline(always)]
fn decode_bytes<const N: usize>(field: &[u8], bytes: &mut ArrayVec<u8, N>, front: usize) -> bool
    requires front_in { front ≤ length bytes.old.items }
    requires fits { front + length field.now / 2 ≤ N }
    ensures read { IsRead result (drop front bytes.new.items) (bytes_in field.now) }
    ensures kept { take front bytes.new.items ≡ take front bytes.old.items }
    ensures front_in { front ≤ length bytes.new.items }
{
    if field == b"-".as_slice() {
        bytes.truncate(front);
        return true;
    }
    if field.is_empty() {
        return false;
    }
    set_length(bytes, front, front + field.len() / 2, field);
    hex::decode_to_slice(field, &mut bytes.as_mut_slice()[front..]).is_ok()
}

/// Makes bytes as many as these, and keeps those at the front. What the others are does not matter: some of the filler
/// where they were fewer. Where they were as many, nothing is moved.
#[inline(always)]
fn set_length<const N: usize>(bytes: &mut ArrayVec<u8, N>, front: usize, len: usize, filler: &[u8])
    requires front_in { (front ≤ length bytes.old.items) × (front ≤ len) }
    requires fits { len ≤ N }
    requires filler { len ≤ front + length filler.now }
    ensures length { length bytes.new.items ≡ len }
    ensures kept { take front bytes.new.items ≡ take front bytes.old.items }
{
    bytes.truncate(len);
    let held = bytes.len();
    if held < len {
        let _ = bytes.try_extend_from_slice(&filler[..len - held]);
    }
}
