// The faults of a plan.
ghost use Rattle.plans.specs.Faults.{plan_fault_of};
ghost use Rattle.std.specs.Prelude.{◌≡◌};

use limits::{Fault, Layer, Refusal};

// The fault of a plan at a record: of its bytes, or of its values.
pub fn plan_fault(refusal: Refusal, place: usize) -> Fault
    ensures answer { result ≡ plan_fault_of refusal place }
{
    let layer = match refusal {
        Refusal::PlanSize | Refusal::RecordForm | Refusal::ActionBeforeServer => Layer::RecordBytes,
        _ => Layer::PlanValues,
    };
    Fault {
        layer,
        refusal,
        place,
    }
}
