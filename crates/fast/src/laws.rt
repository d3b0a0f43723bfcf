ghost use Rattle.fast.specs.Costs.{LoneCost};

// A station that begins while all rest is inside with its turn 5, and at rest with its second turn after its end, and not before.
// It is a law of this algorithm and none of the trait's, since an algorithm need not have an exact cost.
pub fn lone_cost_is_exact()
    ensures { LoneCost }
{}
