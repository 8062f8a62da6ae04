//! What a run has left for its report.
use jc_model::Transcript;
use jc_script::Managed;

/// What a script's lines came to: the transcript of their calls, and what became of those that create and destroy.
#[derive(Clone, Copy)]
pub struct RunRecord<'a> {
    pub transcript: &'a Transcript,
    pub managed: &'a [Managed],
}
