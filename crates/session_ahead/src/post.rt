//! A request that goes to a backend.

use backend_trait::Request;
use pool_base::BackendId;

/// A request and the backend that it goes to.
#[derive(Drop)]
pub struct Post {
    pub b: BackendId,
    pub request: Request,
}
