//! The handle of a test, on which a store under test insists.
use std::process::Abort;
use store_bench::Insists;

/// A handle that ends the test where something that is insisted on isn't so.
#[derive(Drop)]
pub struct TestHandle<R: Abort>(pub R);

impl<R: Abort> Insists for TestHandle<R> {
    fn insist(&self, so: bool, what: &str) {
        assert!(&self.0; so, "{what}");
    }
}
