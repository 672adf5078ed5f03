//! What opens doors and takes them back.
ghost use Rattle.std.specs.Prelude.{◌≡◌, ◌+◌, ◌-◌, ◌^◌, ℕ, IfOk, IfSome, IsErrOf, List, OnOk, Some, min};
ghost use Rattle.std.specs.declared.option.Option.{Option};
ghost use Rattle.merge_ports.specs.Faults.{Rose};
ghost use Rattle.merge_ports.specs.declared.outside.OpenFault.TheVariants.{Failed as failed, NoMemory as no_memory};

use crate::door::Door;
use merge_ports::OpenFault;
use merge_types::Words;

/// Opens doors at addresses, and takes them back.
pub trait Doors {
    type Opened: Door;

    /// How many connections the door handed out that was given back last, where it is told.
    ghost handed: { Self → Option ℕ };

    /// How often an opening failed, with the faults of the doors that were given back. It never falls,
    /// and stays once it is the greatest u64.
    ghost count: { Self → ℕ };

    /// The address at which a door was asked for last, if one was.
    ghost asked: { Self → Option (List ℕ) };

    /// Opens a door, which has handed out no connection and has no faults yet.
    fn door(&mut self, address: &Words) -> Result<Self::Opened, OpenFault>
        ensures unopened { IfOk result (λ door. IfSome (Self.Opened.handed door) (λ n. n ≡ 0)) }
        ensures unfailed { IfOk result (λ door. Self.Opened.count door ≡ 0) }
        ensures handed { handed self.new ≡ handed self.old }
        ensures asked { asked self.new ≡ Some address.now }
        ensures failed { IsErrOf result failed → Rose (count self.old) (count self.new) }
        ensures kept { OnOk result (count self.new ≡ count self.old) }
        ensures starved { IsErrOf result no_memory → count self.new ≡ count self.old };

    /// Takes a door back, and counts its faults. It takes no memory.
    fn door_back(&mut self, door: Self::Opened)
        ensures handed { handed self.new ≡ Self.Opened.handed door }
        ensures asked { asked self.new ≡ asked self.old }
        ensures count { count self.new ≡ min (count self.old + Self.Opened.count door) (2 ^ 64 - 1) };
}
