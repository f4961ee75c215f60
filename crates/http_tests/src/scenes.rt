//! Scripts that are followed, and what is to come of each.
use crate::scripts::{RecordingSink, Waits};
use api_client::Opened;
use list_and_watch::{Follower, follow};
use plain_informer::PlainInformer;
use scripted_api::{First, Script, ScriptedWatch};
use spec_api::kinds::Kind;
use std::alloc::Global;

/// A list at revision 5 with one object, and one at revision 9 with none.
pub const LIST: &str =
    "{\"kind\":\"ConfigMapList\",\"apiVersion\":\"v1\",\"metadata\":{\"resourceVersion\":\"5\"},\"items\":[{\"metadata\":{\"name\":\"a\",\"namespace\":\"b\",\"uid\":\"c\",\"resourceVersion\":\"4\"}}]}";

pub const LATER: &str =
    "{\"kind\":\"ConfigMapList\",\"apiVersion\":\"v1\",\"metadata\":{\"resourceVersion\":\"9\"},\"items\":[]}";

/// Two bookmarks, the first in halves.
pub const HALF: &str =
    "{\"type\":\"BOOKMARK\",\"object\":{\"kind\":\"ConfigMap\",\"apiVersion\":\"v1\",";

pub const REST: &str = "\"metadata\":{\"resourceVersion\":\"7\"}}}\n";

pub const NINE: &str =
    "{\"type\":\"BOOKMARK\",\"object\":{\"kind\":\"ConfigMap\",\"apiVersion\":\"v1\",\"metadata\":{\"resourceVersion\":\"9\"}}}\n";

pub const EXPIRED: &str = "{\"type\":\"ERROR\",\"object\":{\"kind\":\"Status\",\"code\":410}}\n";

/// The first object at revision 7, as it was listed.
pub const SAME_LATER: First<'static> = First {
    code: 200,
    body: "{\"kind\":\"ConfigMapList\",\"apiVersion\":\"v1\",\"metadata\":{\"resourceVersion\":\"7\"},\"items\":[{\"metadata\":{\"name\":\"a\",\"namespace\":\"b\",\"uid\":\"c\",\"resourceVersion\":\"4\"}}]}",
};

/// The first object at revision 5, as it was listed.
pub const SAME: First<'static> = First {
    code: 200,
    body: LIST,
};

/// Watches that show a change of the server's, and then are cut: none, two bookmarks, and one.
pub const EMPTY: ScriptedWatch<'static> = ScriptedWatch {
    opened: Opened::Open,
    pieces: &[],
    ends: false,
};

pub const SEVEN_AND_HALF: ScriptedWatch<'static> = ScriptedWatch {
    opened: Opened::Open,
    pieces: &[HALF, REST, HALF],
    ends: false,
};

pub const UNTIL_NINE: ScriptedWatch<'static> = ScriptedWatch {
    opened: Opened::Open,
    pieces: &[NINE],
    ends: false,
};

/// A script that is followed until revision 9: what is answered, how many changes the sink refuses, and at how many pauses the clock stops
/// it; then what was asked, published and waited, how many changes, first ones and objects there were, and how often it was told that something
/// is not understood, and that there is another server.
#[derive(Drop)]
pub struct FollowerScene<'a> {
    pub lists: &'a [&'a str],
    pub firsts: &'a [First<'a>],
    pub watches: &'a [ScriptedWatch<'a>],
    pub refusals: u64,
    pub most: usize,
    pub asked: &'a [u64],
    pub published: &'a [u64],
    pub pauses: &'a [u64],
    pub counts: (usize, usize, usize),
    pub told: (usize, usize),
}

/// Returns a follower that asks for lists, or for streams of initial events.
fn begin(alloc: Global, is_streaming: bool) -> Follower<PlainInformer> {
    let informer = PlainInformer::new(alloc);
    if is_streaming {
        Follower::streaming(alloc, Kind::ConfigMap, informer)
    } else {
        Follower::new(alloc, Kind::ConfigMap, informer)
    }
}

/// Returns a server that answers as a scene says.
fn server<'a>(alloc: Global, scene: &FollowerScene<'a>) -> Script<'a> {
    Script {
        answers: &[],
        played: 0,
        requests: Vec::new(alloc),
        lists: scene.lists,
        firsts: scene.firsts,
        watches: scene.watches,
        listed: 0,
        looked: 0,
        opened: 0,
        given: 0,
        asked: Vec::new(alloc),
        understood: 0,
        not_understood: 0,
    }
}

/// Returns a clock that stops the follower at a pause.
fn clock(alloc: Global, most: usize) -> Waits {
    Waits {
        now: 1_000_000,
        most,
        pauses: Vec::new(alloc),
    }
}

/// Returns a sink that refuses so many changes, and stops the follower at revision 9.
fn sink(alloc: Global, refusals: u64) -> RecordingSink {
    RecordingSink {
        until: 9,
        refusals,
        changes: 0,
        firsts: 0,
        revisions: Vec::new(alloc),
        objects: 0,
        others: 0,
    }
}

/// Returns whether what was asked, waited and published is what a scene says.
fn is_as_said(
    scene: &FollowerScene<'_>,
    script: &Script<'_>,
    waits: &Waits,
    seen: &RecordingSink,
) -> bool {
    script.asked.as_slice() == scene.asked
        && seen.revisions.as_slice() == scene.published
        && waits.pauses.as_slice() == scene.pauses
        && (seen.changes, seen.firsts, seen.objects) == scene.counts
        && (script.not_understood, seen.others) == scene.told
}

/// Returns whether a script is followed as it says.
pub fn is_followed(alloc: Global, scene: &FollowerScene<'_>, is_streaming: bool) -> bool {
    let mut script = server(alloc, scene);
    let mut waits = clock(alloc, scene.most);
    let mut seen = sink(alloc, scene.refusals);
    let mut follower = begin(alloc, is_streaming);
    follow(
        alloc,
        Kind::ConfigMap,
        &mut follower,
        &mut script,
        &mut waits,
        &mut seen,
    );
    is_as_said(scene, &script, &waits, &seen)
}

/// Returns the first script that is not followed as it says, with streams of initial events or with lists.
pub fn first_unlike(
    alloc: Global,
    scenes: &[FollowerScene<'_>],
    is_streaming: bool,
) -> Option<usize> {
    for (place, scene) in scenes.iter().enumerate() {
        if !is_followed(alloc, scene, is_streaming) {
            return Some(place);
        }
    }
    None
}

/// What leads to a list after a watch at revision 5: the watch, what is said after it of the first object there, where that is asked for, how many
/// pauses there are, and how often it was told that something is not understood, and that there is another server.
pub struct Relisting<'a> {
    pub watches: &'a [ScriptedWatch<'a>],
    pub firsts: &'a [First<'a>],
    pub pauses: usize,
    pub told: (usize, usize),
}

/// The pauses before the first tries that follow on one that failed.
const PAUSES: [u64; 2] = [800, 1_600];

/// Returns whether a list is asked for after a watch, as it says.
fn is_relisted(alloc: Global, row: &Relisting<'_>) -> bool {
    let asked: &[u64] = if row.firsts.is_empty() {
        &[0, 5, 0]
    } else {
        &[0, 5, 105, 0]
    };
    let scene = FollowerScene {
        lists: &[LIST, LATER],
        firsts: row.firsts,
        watches: row.watches,
        refusals: 0,
        most: usize::MAX,
        asked,
        published: &[5, 9],
        pauses: PAUSES.get(..row.pauses).unwrap_or(&PAUSES),
        counts: (2, 1, 0),
        told: row.told,
    };
    is_followed(alloc, &scene, false)
}

/// Returns the first watch after which no list is asked for as it says.
pub fn first_unlisted(alloc: Global, rows: &[Relisting<'_>]) -> Option<usize> {
    for (place, row) in rows.iter().enumerate() {
        if !is_relisted(alloc, row) {
            return Some(place);
        }
    }
    None
}

/// Returns the first table in which there is something, and its place there.
pub fn first_of(firsts: &[Option<usize>]) -> Option<(usize, usize)> {
    for (table, &first) in firsts.iter().enumerate() {
        if let Some(place) = first {
            return Some((table, place));
        }
    }
    None
}
