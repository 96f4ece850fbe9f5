//! Where the outputs of a run go.
use sarif_request::RequestedOutput;
use sarif_streams::Counted;

/// Where the outputs of a run go.
#[derive(Debug, Drop)]
pub struct Writers<W, S, P> {
    /// The merged log.
    pub out: Counted<W>,
    /// The other outputs that are requested, in the order in which they are written.
    pub reports: Vec<RequestedOutput<Counted<P>>>,
    /// The summary.
    pub say: Counted<S>,
}
