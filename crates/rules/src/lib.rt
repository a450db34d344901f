// The plain types that the specification and the code share. The rules themselves are in specs/.
#![tactic(auto)]

ghost use Rattle.std.specs.Prelude.{◌≡◌};
ghost use Rattle.rules.specs.Answers.{none, plan_accepted, plan_refused, check_accepted, check_refused, list_accepted, list_refused, finish_accepted, finish_refused};
ghost use Rattle.rules.specs.Faults.{fault_number, refusal_at};

// Why an input is turned down: the numbers of the list, by the names that the C header gives them.
#[derive(Clone, Copy, Debug, PartialEq, Eq)]
pub enum Fault {
    BookLength = 1,
    BookVersion = 2,
    Processors = 3,
    Flows = 4,
    CutShort = 5,
    Deadline = 6,
    Jobs = 7,
    Size = 8,
    Cap = 9,
    Predecessor = 10,
    WorkArea = 11,
    Infeasible = 12,
    Output = 13,
    TableHead = 14,
    RowRange = 15,
    RowOrder = 16,
    RowCap = 17,
    SlotFull = 18,
    Precedence = 19,
    Total = 20,
    Finish = 21,
    Release = 22,
    NoSuchFlow = 23,
    Calendar = 24,
    RowShut = 25,
}

impl Fault {
    // Its number in the list.
    pub fn number(self) -> u8
        ensures { result ≡ fault_number self }
    {
        self as u8
    }

    // Turned down with no place.
    pub fn nowhere(self) -> Refusal
        ensures { result ≡ refusal_at self none none }
    {
        self.at(NO_PLACE, NO_PLACE)
    }

    // Turned down at a flow, and at none of its jobs.
    pub fn at_flow(self, flow: u8) -> Refusal
        ensures { result ≡ refusal_at self flow none }
    {
        self.at(flow, NO_PLACE)
    }

    // Turned down at a job of a flow.
    pub fn at(self, flow: u8, job: u8) -> Refusal
        ensures { result ≡ refusal_at self flow job }
    {
        Refusal {
            fault: self,
            flow,
            job,
        }
    }
}

// What stands for a flow or a job where there is none: the C interface gives a place as two bytes.
pub const NO_PLACE: u8 = 255;

// An input turned down: by which fault, and its place, a flow and a job.
#[derive(Clone, Copy, Debug, PartialEq, Eq)]
pub struct Refusal {
    pub fault: Fault,
    pub flow: u8,
    pub job: u8,
}

// The four answers are plain structs with a number, 0 where the call is accepted: the C interface has them so.

// What the planner answers.
#[repr(C)]
#[derive(Clone, Copy)]
pub struct PlanAnswer {
    pub number: u8,
    pub flow: u8,
    pub job: u8,
    pub late: u8,
    pub length: u32,
}

impl PlanAnswer {
    // A table of so many bytes, with so many late flows.
    pub fn accepted(late: u8, length: u32) -> Self
        ensures { result ≡ plan_accepted late length }
    {
        Self {
            number: 0,
            flow: NO_PLACE,
            job: NO_PLACE,
            late,
            length,
        }
    }

    // Turned down with this number, at this flow and job.
    pub fn refused(number: u8, flow: u8, job: u8) -> Self
        ensures { result ≡ plan_refused number flow job }
    {
        Self {
            number,
            flow,
            job,
            late: 0,
            length: 0,
        }
    }
}

impl From<Refusal> for PlanAnswer {
    ghost from_gives = { λ r answer. answer ≡ plan_refused (fault_number r.fault) r.flow r.job };

    fn from(r: Refusal) -> Self {
        Self::refused(r.fault.number(), r.flow, r.job)
    }
}

// What the table check answers.
#[repr(C)]
#[derive(Clone, Copy)]
pub struct CheckAnswer {
    pub number: u8,
    pub flow: u8,
    pub job: u8,
    pub late: u8,
}

impl CheckAnswer {
    // A table with so many late flows.
    pub fn accepted(late: u8) -> Self
        ensures { result ≡ check_accepted late }
    {
        Self {
            number: 0,
            flow: NO_PLACE,
            job: NO_PLACE,
            late,
        }
    }

    // Turned down with this number, at this flow and job.
    pub fn refused(number: u8, flow: u8, job: u8) -> Self
        ensures { result ≡ check_refused number flow job }
    {
        Self {
            number,
            flow,
            job,
            late: 0,
        }
    }
}

impl From<Refusal> for CheckAnswer {
    ghost from_gives = { λ r answer. answer ≡ check_refused (fault_number r.fault) r.flow r.job };

    fn from(r: Refusal) -> Self {
        Self::refused(r.fault.number(), r.flow, r.job)
    }
}

// What the dispatch list's call answers.
#[repr(C)]
#[derive(Clone, Copy)]
pub struct ListAnswer {
    pub number: u8,
    pub flow: u8,
    pub job: u8,
    pub length: u32,
}

impl ListAnswer {
    // A list of so many bytes.
    pub fn accepted(length: u32) -> Self
        ensures { result ≡ list_accepted length }
    {
        Self {
            number: 0,
            flow: NO_PLACE,
            job: NO_PLACE,
            length,
        }
    }

    // Turned down with this number, at this flow and job.
    pub fn refused(number: u8, flow: u8, job: u8) -> Self
        ensures { result ≡ list_refused number flow job }
    {
        Self {
            number,
            flow,
            job,
            length: 0,
        }
    }
}

impl From<Refusal> for ListAnswer {
    ghost from_gives = { λ r answer. answer ≡ list_refused (fault_number r.fault) r.flow r.job };

    fn from(r: Refusal) -> Self {
        Self::refused(r.fault.number(), r.flow, r.job)
    }
}

// What the call for the finish of one flow answers.
#[repr(C)]
#[derive(Clone, Copy)]
pub struct FinishAnswer {
    pub number: u8,
    pub flow: u8,
    pub job: u8,
    pub finish: u16,
}

impl FinishAnswer {
    // A flow's finish.
    pub fn accepted(finish: u16) -> Self
        ensures { result ≡ finish_accepted finish }
    {
        Self {
            number: 0,
            flow: NO_PLACE,
            job: NO_PLACE,
            finish,
        }
    }

    // Turned down with this number, at this flow and job.
    pub fn refused(number: u8, flow: u8, job: u8) -> Self
        ensures { result ≡ finish_refused number flow job }
    {
        Self {
            number,
            flow,
            job,
            finish: 0,
        }
    }
}

impl From<Refusal> for FinishAnswer {
    ghost from_gives = { λ r answer. answer ≡ finish_refused (fault_number r.fault) r.flow r.job };

    fn from(r: Refusal) -> Self {
        Self::refused(r.fault.number(), r.flow, r.job)
    }
}
