//! What stands before and behind each job.

use std::sync::Wait;

/// What stands before and behind each job of a worker, as a test that has workers wait for one another.
pub trait Gate {
    /// Is called before the first step of the job of this number.
    fn before<R: Wait>(&self, rt: &R, job: u64);

    /// Is called after its last step.
    fn after<R: Wait>(&self, rt: &R, job: u64);
}

/// It lets all jobs pass.
#[derive(Clone, Copy)]
pub struct OpenGate;

impl Gate for OpenGate {
    fn before<R: Wait>(&self, _rt: &R, _job: u64) {}

    fn after<R: Wait>(&self, _rt: &R, _job: u64) {}
}
