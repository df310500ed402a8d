// What a statement may do, and in which order.

ghost use Rattle.std.specs.Prelude.{◌≡◌};
ghost use Rattle.kernel_model.specs.Effects.{in_order, either, fault_if, none, a_store};

/// What a statement may do.
#[derive(Clone, Copy, PartialEq, Eq, Debug)]
pub struct Effects {
    /// something may be stored through an argument
    pub stores: bool,
    /// something may fault
    pub faults: bool,
    /// nothing that may fault can run after a store through an argument
    pub ordered: bool,
}

impl Effects {
    /// Nothing is stored through an argument, and nothing faults.
    pub fn none() -> Self
        ensures { result ≡ none }
    {
        Self::fault_if(false)
    }

    /// Something is stored through an argument.
    pub fn a_store() -> Self
        ensures { result ≡ a_store }
    {
        Effects {
            stores: true,
            faults: false,
            ordered: true,
        }
    }

    /// Something may fault, if so.
    pub fn fault_if(faults: bool) -> Self
        ensures { result ≡ fault_if faults }
    {
        Effects {
            stores: false,
            faults,
            ordered: true,
        }
    }

    /// What both may do, one after the other.
    pub fn then(self, next: Self) -> Self
        ensures { result ≡ in_order self next }
    {
        Effects {
            stores: self.stores || next.stores,
            faults: self.faults || next.faults,
            ordered: !(self.stores && next.faults) && self.ordered && next.ordered,
        }
    }

    /// What one of them may do, where either runs.
    pub fn or(self, other: Self) -> Self
        ensures { result ≡ either self other }
    {
        Effects {
            stores: self.stores || other.stores,
            faults: self.faults || other.faults,
            ordered: self.ordered && other.ordered,
        }
    }
}
