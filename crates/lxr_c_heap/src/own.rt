//! The registers of the library's own: a call keeps there what it has to hold on the way, and leaves them nil.
ghost use Rattle.std.specs.Prelude.{◌≡◌};
ghost use Rattle.lxr_c_heap.specs.Hosting.{IsServing, own_in};

use crate::host::HostHeap;
use crate::settings::OWN_REGISTERS;

/// The two registers behind those that the host may name.
#[derive(Clone, Copy, Debug, PartialEq, Eq)]
pub struct OwnRegisters {
    pub first: u8,
    pub second: u8,
}

impl HostHeap {
    /// The registers of the library's own; none where the host names so many that there is no room for them.
    #[inline(always)]
    pub fn own(&self) -> Option<OwnRegisters>
        requires serving { IsServing self.now }
        ensures { result ≡ own_in self.now }
    {
        let named = u32::from(self.named);
        if named + OWN_REGISTERS > u32::from(self.heap.registers()) {
            return None;
        }
        Some(OwnRegisters {
            first: named as u8,
            second: (named + 1) as u8,
        })
    }
}
