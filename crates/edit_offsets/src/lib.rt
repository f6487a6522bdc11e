// The chunk offsets of a file that was edited.
#![tactic(auto)]

ghost use Rattle.std.specs.Prelude.{◌≡◌, ◌+◌, ◌≤◌, length};
ghost use Rattle.codes.specs.Codes.{MOOV};
ghost use Rattle.boxes.specs.Walk.{payload};
ghost use Rattle.boxes.specs.Rewrite.{edit_in, in_body};
ghost use Rattle.boxes.specs.Words.{reword_leaf, moved, Small};
ghost use Rattle.edit_offsets.specs.Close.{shut_form, shut_at, closed_at};
ghost use Rattle.edit_offsets.specs.Settle.{offsets};

use boxes::walk::{BoxAt, Form};
use boxes::words::{By, Target, Targets};
use boxes::{containers, walk, words};
use wire::number;

// A form that says the size.
fn shut_form(form: Form) -> Form
    ensures { result ≡ shut_form form }
{
    match form {
        Form::Plain => Form::Plain,
        Form::Wide => Form::Wide,
        Form::Open => Form::Plain,
    }
}

// A `moov` that was found, with a form that says its size.
pub fn shut(b: BoxAt) -> BoxAt
    ensures { result ≡ shut_at b }
{
    let form = b.form;
    BoxAt {
        form: shut_form(form),
        ..b
    }
}

// Gives the `moov` b of a part its true size where it stands, if it is open.
#[tactic(auto, unfolding(crate::specs::Close::closed_at))]
pub fn close(out: &mut [u8], b: BoxAt)
    requires { b.at + 8 ≤ length out.old }
    ensures { out.new ≡ closed_at b out.old }
{
    let form = b.form;
    if walk::is_open(form) {
        number::put32(out, b.at, b.span);
    }
}

// Moves every chunk offset of the `moov` b of a part where it stands.
pub fn settle(out: &mut [u8], b: BoxAt, by: By)
    requires { (b.head ≤ b.span) × (b.at + b.span ≤ length out.old) × Small by }
    ensures { out.new ≡ in_body out.old b (edit_in (reword_leaf offsets (moved by)) 5 MOOV (payload out.old b)) }
{
    let t = Target {
        kind: codes::STBL,
        code: codes::STCO,
        from: 8,
        span: containers::LONGEST,
    };
    words::reword_moov(
        out,
        b,
        Targets {
            one: t,
            two: t,
            three: t,
        },
        by,
    );
}
