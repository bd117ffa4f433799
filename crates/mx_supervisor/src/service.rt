//! The calls by their numbers.
ghost use Rattle.mx_supervisor.specs.Services.{IsNumbered};

/// What a call asks for.
#[derive(Clone, Copy, PartialEq, Eq)]
pub enum Service {
    /// Call 1, exit.
    Exit,
    /// Call 2, write.
    Write,
    /// Call 3, grant.
    Grant,
    /// Call 4, revoke_all.
    RevokeAll,
    /// Call 5, transfer.
    Transfer,
    /// Call 6, alloc.
    Alloc,
    /// Call 7, free.
    Free,
    /// Call 8, gate.
    AddGate,
    /// Call 9, ungate.
    RemoveGate,
    /// Call 10, return_gate.
    AddReturnGate,
    /// Call 11, query.
    Query,
    /// Call 12, self.
    Identify,
    /// Call 13, exchange.
    Exchange,
    /// No call has the number.
    Unknown,
}

impl Service {
    /// What a call of a number asks for.
    pub fn of(number: u32) -> Service
        ensures { IsNumbered result number }
    {
        match number {
            1 => Service::Exit,
            2 => Service::Write,
            3 => Service::Grant,
            4 => Service::RevokeAll,
            5 => Service::Transfer,
            6 => Service::Alloc,
            7 => Service::Free,
            8 => Service::AddGate,
            9 => Service::RemoveGate,
            10 => Service::AddReturnGate,
            11 => Service::Query,
            12 => Service::Identify,
            13 => Service::Exchange,
            _ => Service::Unknown,
        }
    }
}
