//! Laws of what a check may answer, for every stream: each is what its function ensures.
//! There is no code here.
ghost use Rattle.std.specs.Prelude.{◌≡◌, ℕ, List};
ghost use Rattle.lb_health_core.specs.declared.error.CheckError.TheVariants.{BadHead, HeadTooLarge, EndInMessage};
ghost use Rattle.lb_health_http.specs.Head.{HasBadHead, HasLargeHead, EndsInHead};
ghost use Rattle.lb_health_http.specs.FaultLaws.{HasFaultAlone};

/// A stream has at most one of the three faults of a head, and then no other answer than that fault.
///
/// So `BadHead`, `HeadTooLarge` and an `EndInMessage` in a head exclude each other, and each message whose head is whole. A fault is found
/// at one place: what is left unread is one.
pub fn head_faults_exclude_each_other()
    ensures bad { (stream rest : List ℕ) → HasBadHead stream rest → HasFaultAlone BadHead stream }
    ensures large { (stream rest : List ℕ) → HasLargeHead stream rest → HasFaultAlone HeadTooLarge stream }
    ensures ended { (stream : List ℕ) → EndsInHead stream → HasFaultAlone EndInMessage stream }
    ensures bad_at { (stream rest other : List ℕ) → HasBadHead stream rest → HasBadHead stream other → rest ≡ other }
    ensures large_at { (stream rest other : List ℕ) → HasLargeHead stream rest → HasLargeHead stream other → rest ≡ other }
{}
