//! What the lines of a tenant's records begin with.
ghost use Rattle.std.specs.Prelude.{◌≡◌, ◌+◌, ◌≤◌, length};
ghost use Rattle.art_lines.specs.Gathered.{Puts, IsHead, head_of};

use crate::room::{put_number, put_text};

/// How many bytes a head takes at most.
const HEAD: usize = 16;

/// What the lines of a tenant's records begin with: `put`, the tenant's number and the spaces. It is made once for all
/// lines that begin with it. It is put as 16 bytes at a time, and the line's key then takes the last ones.
#[derive(Drop)]
pub struct Head {
    tenant: u32,
    text: [u8; HEAD],
    len: usize,
    ghost held: { IsHead tenant text len },
}

impl Head {
    ghost use Rattle.art_lines.specs.Ends.{tenant_of_head};

    /// That of a tenant.
    #[inline(never)]
    pub fn new(tenant: u32) -> Self
        ensures { tenant_of_head result ≡ tenant }
    {
        let mut text = [0; HEAD];
        let number = put_text(&mut text, 0, b"put ");
        let space = put_number(&mut text, number, u64::from(tenant));
        let len = put_text(&mut text, space, b" ");
        Head { tenant, text, len }
    }

    /// Makes it that of a tenant.
    #[inline]
    pub fn set_tenant(&mut self, tenant: u32)
        ensures { tenant_of_head self.new ≡ tenant }
    {
        if self.tenant != tenant {
            self.rebuild(tenant);
        }
    }

    /// Makes it that of another tenant. Not inlined, so that a line of the same tenant clears no room for a head.
    #[inline(never)]
    fn rebuild(&mut self, tenant: u32)
        ensures { self.new.tenant ≡ tenant }
    {
        *self = Head::new(tenant);
    }

    /// Puts it.
    #[inline]
    pub(crate) fn put(&self, room: &mut [u8], at: usize) -> usize
        requires { at + 16 ≤ length room.old }
        ensures { Puts result at (head_of (tenant_of_head self.now)) room.old room.new }
    {
        let text = self.text;
        let _next = put_text(room, at, &text);
        at + self.len
    }
}
