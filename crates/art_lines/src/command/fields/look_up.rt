//! The fields of a look-up that was parsed, set in place.
ghost use Rattle.std.specs.Prelude.{◌≡◌, ◌+◌, ◌≤◌, length, take, drop, true};
ghost use Rattle.art_lines.specs.Parsed.{is_look_up, looks_up, meaning};
ghost use Rattle.art_lines.specs.Parsed.{tenant_in_place, key_in_place, upper_in_place};
ghost use Rattle.art_lines.specs.Parsed.{number_in_place, bound_in_place, all_in_place};

use super::{FIELD, Fields, TENANT_LEN, room_after};
use crate::command::Command;
use crate::command::word::LookUp;
use arrayvec::ArrayVec;

impl Fields {
    /// Sets the fields that a look-up asks with, and returns its word. The command has to be one of the six look-ups.
    ///
    /// ```
    /// use art_lines::command::{fields::Fields, word::LookUp};
    /// let mut fields = Fields::new();
    /// let word = fields.set_look_up(&Command::NGet { tenant: 7, number: -5 });
    /// assert!(rt; matches!(word, LookUp::NGet));
    /// assert_eq!(rt; (fields.tenant(), fields.number()), (7, -5));
    /// ```
    pub fn set_look_up(&mut self, command: &Command) -> LookUp
        requires { is_look_up command.now ≡ true }
        ensures { looks_up result self.new ≡ meaning command.now }
    {
        match command {
            Command::Get { tenant, key } => {
                self.set_tenant_and_key(*tenant, key);
                LookUp::Get
            }
            Command::Find { tenant, key } => {
                self.set_tenant_and_key(*tenant, key);
                LookUp::Find
            }
            Command::List { tenant, prefix } => {
                self.set_tenant_and_key(*tenant, prefix);
                LookUp::List
            }
            Command::Span { tenant, low, high } => {
                self.set_tenant_and_key(*tenant, low);
                self.set_upper(high);
                LookUp::Span
            }
            Command::NGet { tenant, number } => {
                self.set_tenant(*tenant);
                self.number = *number;
                LookUp::NGet
            }
            Command::NSpan { tenant, low, high } => {
                self.set_tenant(*tenant);
                self.number = *low;
                self.bound = *high;
                LookUp::NSpan
            }
            _ => unreachable!(),
        }
    }

    /// Sets the tenant, and the key after it.
    fn set_tenant_and_key(&mut self, tenant: u32, key: &ArrayVec<u8, FIELD>)
        ensures { all_in_place self.new ≡ record (all_in_place self.old) { tenant = tenant; key = key.now.items } }
    {
        self.set_tenant(tenant);
        set_bytes(&mut self.full_key, key.as_slice());
    }

    /// Sets the upper one of two keys.
    fn set_upper(&mut self, upper: &ArrayVec<u8, FIELD>)
        ensures { all_in_place self.new ≡ record (all_in_place self.old) { upper = upper.now.items } }
    {
        if let Some(held) = &mut self.upper {
            set_bytes(held, upper.as_slice());
            return;
        }
        let mut bytes = room_after(self.full_key.as_slice());
        set_bytes(&mut bytes, upper.as_slice());
        self.upper = Some(bytes);
    }
}

/// Sets the bytes after those of the tenant, which stay.
fn set_bytes<const N: usize>(bytes: &mut ArrayVec<u8, N>, field: &[u8])
    requires front { 4 ≤ length bytes.old.items }
    requires fits { 4 + length field.now ≤ N }
    ensures set { drop 4 bytes.new.items ≡ field.now }
    ensures kept { take 4 bytes.new.items ≡ take 4 bytes.old.items }
    ensures front { 4 ≤ length bytes.new.items }
{
    bytes.truncate(TENANT_LEN);
    let _ = bytes.try_extend_from_slice(field);
}
