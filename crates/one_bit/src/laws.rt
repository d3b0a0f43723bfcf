ghost use Rattle.one_bit.specs.Costs.{LoneCost};

// With N stations, a station that begins while all rest is inside with its turn N, and at rest with its first turn after its end, and not before.
// It is a law of this algorithm and none of the trait's, since an algorithm need not have an exact cost.
pub fn lone_cost_is_exact()
    ensures { LoneCost }
{}
