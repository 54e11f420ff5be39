//! The commands of `sums`, each over the streams of a session.
#![tactic(auto)]

pub use fault::{Fault, tell};
pub use laws::{
    check_share_laws, join_laws, keyed_laws, part_share_laws, share_laws, visible_laws,
};
pub use session::{Session, Streams, session_laws};
pub use visible::write_visible;

// Calls a function on the feed of a name, as its last argument, or on what is made of the feed: standard input for `-`,
// otherwise the file with the name from a position on, which is opened before the call and closed after it.
macro_rules! read_named {
    ($session:ident, $name:expr, $position:expr, $function:ident($($argument:expr),*) $(in $made:ident)?) => {{
        if $name == "-" {
            return $function($($argument,)* $(&mut $made::new)?($session.input));
        }
        let mut feed = open_file($name, $position, $session.tree)?;
        let answer = $function($($argument,)* $(&mut $made::new)?(&mut feed));
        $session.tree.close(feed);
        answer
    }};
}

// The same by a method of a session whose input is that feed.
macro_rules! read_as_input {
    ($session:ident, $name:expr, $function:ident($($argument:expr),*)) => {{
        if $name == "-" {
            return $session.$function($($argument),*);
        }
        let mut feed = open_file($name, 0, $session.tree)?;
        let mut listed = Session {
            alloc: $session.alloc,
            input: &mut feed,
            tree: $session.tree,
            out: $session.out,
        };
        let answer = listed.$function($($argument),*);
        $session.tree.close(feed);
        answer
    }};
}

// The session over the streams that items hold.
macro_rules! session_of {
    ($items:ident) => {
        Session {
            alloc: $items.alloc,
            input: $items.input,
            tree: $items.tree,
            out: $items.out,
        }
    };
}

mod cutting;
mod digests;
mod each;
mod fault;
mod items;
mod joining;
mod keying;
mod keys;
mod laws;
mod lines;
mod listed;
mod making;
mod places;
mod reports;
mod rule;
mod session;
mod told;
mod visible;
