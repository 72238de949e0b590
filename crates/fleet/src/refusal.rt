// Why a call is turned down, of a fleet or of the indices above it. A refused call alters nothing.
ghost use Rattle.std.specs.Prelude.{◌≡◌};
ghost use Rattle.fleet.specs.Refusals.{number as number_of_refusal};

#[derive(Clone, Copy, PartialEq, Eq, Debug)]
pub enum Refusal {
    // the identity is not one of 1 to 65,535
    Identity = 1,
    // the capacity is not one of 1 to 1,000
    Capacity = 2,
    // the states do not keep their rules
    States = 3,
    // the identity is registered
    Registered = 4,
    // 64 units are registered
    Full = 5,
    // all registered units, in service or out, would come to more than 1,000 steps
    TotalCapacity = 6,
    // the identity is not registered
    NotRegistered = 7,
    // the unit is out already, or in service where it must be out
    Standing = 8,
    // the weight of the unit's first state is at most 500,000
    FirstWeight = 9,
    // the new tolerance would pass 1,000,000
    Tolerance = 10,
    // a place above 1,000
    Place = 11,
    // a load model with a wrong number of days, load or percentage
    Loads = 12,
    // an index meets a load above the limit
    AboveLimit = 13,
    // no hours, or more than 1,000,000 of a kind
    Hours = 14,
}

impl Refusal {
    pub fn number(&self) -> u8
        ensures { result ≡ number_of_refusal self.now }
    {
        *self as u8
    }
}
