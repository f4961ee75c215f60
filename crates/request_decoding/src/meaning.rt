//! What is asked.
use request_parts::Request;
use request_parts::list_options::ListOptions;
use request_parts::watch_options::WatchOptions;
use selector::View;

/// What a method, a target and a body ask: a request, the list of a view, or a watch of it.
#[derive(Drop)]
pub enum Asked {
    Request(Request),
    List { view: View, options: ListOptions },
    Watch { view: View, options: WatchOptions },
}
