use mon_code::Program;
use mon_forms::Workload;
use mon_gate::Gate;
use std::alloc::Global;

/// What each task of a run is lent.
#[derive(Drop)]
pub struct Lent<'a, R, B> {
    pub rt: &'a R,
    pub alloc: Global,
    pub gate: &'a Gate,
    pub program: &'a Program,
    pub plan: &'a Workload,
    pub beat: &'a B,
}
