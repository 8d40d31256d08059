// What a plan of a size costs, and a plan of that size that costs most, and one that costs least.
ghost use Rattle.std.specs.Prelude.{◌≡◌, length};
ghost use Rattle.cost.specs.Cost.{cost_reply, cost_after, costliest_tolerance, cheapest_tolerance, PlanLists, plan_lists, writing_reply, plan_written};
ghost use Rattle.wilfnusk.specs.Answers.{int64};

use crate::answers::int64;
use cost::PlanLists as LentLists;

// Refuses 2, 3, 7 (cost: specs/Cost, `cost_refusal`).
#[unsafe(no_mangle)]
pub extern "C" fn wilfnusk_cost(targets: u64, times: u64, n: u64, out: &mut [u64]) -> u64
    ensures value { result ≡ int64 (cost_reply targets times n (length out.old)) }
    ensures out_after { out.new ≡ cost_after targets times n out.old }
{
    int64(cost::cost(targets, times, n, out))
}

// Refuses 2, 3, 7 (cost: specs/Cost, `writing_refusal`).
#[unsafe(no_mangle)]
pub extern "C" fn wilfnusk_costliest_plan(
    targets: u64,
    times: u64,
    n: u64,
    target_numbers: &mut [f64],
    suns: &mut [f64],
    observers: &mut [f64],
    tolerances: &mut [f64],
    panel: &mut [f64],
) -> u64
    ensures { let lent : PlanLists = plan_lists target_numbers.old suns.old observers.old
        tolerances.old panel.old in
        (result ≡ int64 (writing_reply targets times n lent))
        × (plan_lists target_numbers.new suns.new observers.new tolerances.new panel.new
        ≡ plan_written targets times n costliest_tolerance lent) }
{
    let mut lists = LentLists {
        targets: target_numbers,
        suns,
        observers,
        tolerances,
        panel,
    };
    int64(cost::costliest_plan(targets, times, n, &mut lists))
}

// Refuses 2, 3, 7 (cost: specs/Cost, `writing_refusal`).
#[unsafe(no_mangle)]
pub extern "C" fn wilfnusk_cheapest_plan(
    targets: u64,
    times: u64,
    n: u64,
    target_numbers: &mut [f64],
    suns: &mut [f64],
    observers: &mut [f64],
    tolerances: &mut [f64],
    panel: &mut [f64],
) -> u64
    ensures { let lent : PlanLists = plan_lists target_numbers.old suns.old observers.old
        tolerances.old panel.old in
        (result ≡ int64 (writing_reply targets times n lent))
        × (plan_lists target_numbers.new suns.new observers.new tolerances.new panel.new
        ≡ plan_written targets times n cheapest_tolerance lent) }
{
    let mut lists = LentLists {
        targets: target_numbers,
        suns,
        observers,
        tolerances,
        panel,
    };
    int64(cost::cheapest_plan(targets, times, n, &mut lists))
}
