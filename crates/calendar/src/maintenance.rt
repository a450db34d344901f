// The windows of a calendar that passes.
ghost use Rattle.std.specs.Prelude.{◌≤◌, take};
ghost use Rattle.rules.specs.Limits.{most_windows};
ghost use Rattle.rules.specs.Calendar.{CalendarInRange};
ghost use Rattle.calendar.specs.Windows.{windows_in};

// The most windows of a calendar.
pub const MOST_WINDOWS: usize = 32;

// Slots in which the whole cluster is shut, and the first one in which it is open again.
#[derive(Clone, Copy, Debug, Default, PartialEq, Eq)]
pub struct Window {
    pub shut: u16,
    pub reopening: u16,
}

// A calendar that passes: its windows in order, the first `count` of the array, so that it can be copied.
#[derive(Clone, Copy)]
pub struct Calendar {
    pub windows: [Window; MOST_WINDOWS],
    pub count: usize,
    pub ghost few: { count ≤ most_windows },
    pub ghost in_range: { CalendarInRange (windows_in (take count windows)) },
}
