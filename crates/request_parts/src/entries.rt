//! What the table says of a path.
use spec_api::kinds::Group;

/// How a path goes on below the start of its group's paths.
#[derive(Clone, Copy)]
pub enum Layout {
    /// `{resource}`
    All,
    /// `namespaces/{namespace}/{resource}`
    Namespace,
    /// `namespaces/{namespace}/{resource}/{name}`
    Object,
    /// `namespaces/{namespace}/{resource}/{name}/status`
    Status,
}

/// Where a route of the table leads.
#[derive(Clone, Copy)]
pub struct RouteEntry {
    pub group: Group,
    pub layout: Layout,
}

impl RouteEntry {
    ghost use Rattle.std.specs.Prelude.{◌≡◌};
    ghost use Rattle.request_parts.specs.Table.{route_text};

    /// Returns the route that leads here, in the router's notation.
    pub fn path(self) -> &'static str
        ensures { result.now ≡ route_text self.group self.layout }
    {
        match (self.group, self.layout) {
            (Group::Core, Layout::All) => "/api/v1/{resource}",
            (Group::Core, Layout::Namespace) => "/api/v1/namespaces/{namespace}/{resource}",
            (Group::Core, Layout::Object) => "/api/v1/namespaces/{namespace}/{resource}/{name}",
            (Group::Core, Layout::Status) => {
                "/api/v1/namespaces/{namespace}/{resource}/{name}/status"
            }
            (Group::Apps, Layout::All) => "/apis/apps/v1/{resource}",
            (Group::Apps, Layout::Namespace) => "/apis/apps/v1/namespaces/{namespace}/{resource}",
            (Group::Apps, Layout::Object) => {
                "/apis/apps/v1/namespaces/{namespace}/{resource}/{name}"
            }
            (Group::Apps, Layout::Status) => {
                "/apis/apps/v1/namespaces/{namespace}/{resource}/{name}/status"
            }
        }
    }
}
