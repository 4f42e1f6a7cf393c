//! Faults as rows of tables. Each enum of faults lists its own once, in one [`fault_row!`]: their numbers and their names.
//!
//! Words: fault row, fault.
#![tactic(auto)]

ghost use Rattle.std.specs.Prelude.{◌≡◌, ℕ, List};

/// A fault's number among those of its enum, and its name.
#[derive(Clone, Copy, Debug, PartialEq, Eq)]
pub struct FaultRow {
    pub number: u8,
    pub name: &'static str,
}

/// Faults that have numbers and names.
pub trait Fault {
    ghost number_of: { Self → ℕ };

    ghost name_of: { Self → List ℕ };

    /// The fault's row, mostly by [`fault_row!`].
    fn row(&self) -> FaultRow
        ensures number { result.number ≡ number_of self.now }
        ensures name { result.name.now ≡ name_of self.now };

    /// The fault's number among those of its enum.
    final fn number(&self) -> u8
        ensures { result ≡ number_of self.now }
    {
        self.row().number
    }

    /// The fault's name, as it is printed.
    final fn name(&self) -> &'static str
        ensures { result.now ≡ name_of self.now }
    {
        self.row().name
    }
}

/// The row of a fault in the table of its enum: its number, and its variant's name.
///
/// `fault_row!(fault, PicFault { BadSize(_) = 1, Memory = 2 })` is the row of 1 and `"BadSize"`, or that of 2 and `"Memory"`.
#[macro_export]
macro_rules! fault_row {
    ($fault:expr, $Faults:ident {
        $($Variant:ident $(($($unnamed:tt)*))? $({$($named:tt)*})? = $number:literal),* $(,)?
    }) => {
        match $fault {
            $($Faults::$Variant $(($($unnamed)*))? $({$($named)*})? => $crate::FaultRow {
                number: $number,
                name: stringify!($Variant),
            },)*
        }
    };
}

/// The place of a fault, if it has one. A fault that has a place holds nothing else.
///
/// `fault_place!(fault, PicFault { BadSize | BadMax } else Memory)` is `Some` of what a `BadSize` or a `BadMax` holds.
#[macro_export]
macro_rules! fault_place {
    ($fault:expr, $Faults:ident { $($Placed:ident)|+ } else $Elsewhere:ident) => {
        match $fault {
            $($Faults::$Placed(at))|+ => Some(at),
            $Faults::$Elsewhere => None,
        }
    };
}
