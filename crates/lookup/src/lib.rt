// Which window a tick falls in (document 01, "Refusal numbers and their place", 12, and "lookups answer 0").
#![tactic(auto)]

ghost use Rattle.std.specs.Prelude.{◌≡◌};
ghost use Rattle.timeline.specs.Windows.{window_at};
ghost use Rattle.records.specs.Records.{offset_in, budget_in};
ghost use Rattle.lookup.specs.Lookup.{InFrame, answered, lookup_of};

use plan::Plan;
use records::{Window, WindowNo, nth_window, window_end};
use refusal::Refusal;
use timeline::Located;

// The window that holds t, by a scan from the front: the first that ends after t. The last needs no look.
#[tactic(auto, using(timeline::proofs::Laws::window_at_lem))]
fn window_at(windows: &[u32], count: u32, t: u32) -> WindowNo
    requires { InFrame windows.now count t }
    ensures { result.0 ≡ window_at count (offset_in windows.now) (budget_in windows.now) t }
{
    let last = count - 1;
    let tick = t as u64;
    for i in 0..last {
        let end = window_end(nth_window(windows, WindowNo(i)));
        if tick < end {
            return WindowNo(i);
        }
    }
    WindowNo(last)
}

// The plan's refusal, else 12.
#[tactic(auto, using(accepted::proofs::AcceptedLaws::accepted_all, accepted::proofs::FollowLaws::follow, crate::proofs::LookupLaws::lookup_refused, crate::proofs::LookupLaws::lookup_past, crate::proofs::LookupLaws::lookup_found))]
fn find(plan: &Plan<'_>, t: u32) -> Result<WindowNo, Refusal>
    ensures { answered result ≡ lookup_of plan.now t }
{
    plan.check()?;
    if plan.length() <= t {
        return Err(Refusal::TickPastFrame);
    }
    let windows = plan.windows();
    Ok(window_at(windows, (windows.len() / Window::NUMBERS) as u32, t))
}

pub fn lookup(plan: &Plan<'_>, t: u32) -> Located<WindowNo>
    ensures { result ≡ lookup_of plan.now t }
{
    match find(plan, t) {
        Ok(window) => Located {
            window,
            verdict: Ok(()),
        },
        Err(r) => Located {
            window: WindowNo(0),
            verdict: Err(r),
        },
    }
}
