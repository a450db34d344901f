// Late flows, by deadlines and finishes.
ghost use Rattle.std.specs.Prelude.{◌≡◌, ◌+◌, ◌<◌, ◌≤◌, length};
ghost use Rattle.book.specs.Late.{late_by, late_count};

// A flow is late when its finish plus 1 is greater than its deadline.
#[tactic(auto, unfolding(crate::specs::Late::late_by, rules::specs::Rows::is_late))]
pub fn is_late(deadline: u16, finish: u16) -> bool
    ensures { result ≡ late_by deadline finish }
{
    deadline <= finish
}

// How many of the first `flows` flows are late. Two lists, since the count is promised of any deadlines and finishes.
pub fn late_flows(deadlines: &[u16], finish: &[u16], flows: usize) -> u8
    requires { (flows ≤ 64) × (flows ≤ length deadlines.now) × (flows ≤ length finish.now) }
    ensures { result ≡ late_count deadlines.now finish.now flows }
{
    let mut late = 0;
    for f in 0..flows {
        late += u8::from(is_late(deadlines[f], finish[f]));
    }
    late
}
