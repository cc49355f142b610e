//! How a desk answers one item.
ghost use Rattle.std.specs.Prelude.{◌≡◌, ◌⊎◌, Bool, true, false, IfOk, IsOk, Result};
ghost use Rattle.http_front.specs.declared.ask.Ask.{Ask as AnAsk};
ghost use Rattle.http_front.specs.declared.refused.Refused.{Refused as ARefusal};
ghost use Rattle.http_front.specs.declared.told.Told.TheVariants.{Unkept};
ghost use Rattle.hub_core.specs.PageRoom.{IsRoomFor};
ghost use Rattle.quaestor_server.specs.Answer.{IsAnswer, IsShown, Shows, fetched_bytes};

use http_front::{Ask, Refused, Told};
use hub_core::PageRoom;
use hub_desk::{Desk, Trim, all_is_dropped_up_to_the_front};
use q_base::{Memory, Moment};

/// Answers what was read, and says what is shown of it: the reply, once all commits that it could show are
/// kept, where they are to be. A page is fetched into the page buffer.
pub(crate) fn answer<D: Desk>(
    desk: &mut D,
    pages: &mut PageRoom,
    moment: Moment,
    read: Result<Result<Ask, Refused>, Memory>,
) -> Told
    requires room { IsRoomFor (D.setting desk.old) pages.old }
    ensures answer { (early : Bool) (asked : Result AnAsk ARefusal) → (early ≡ true → IsOk read) → IfOk read (λ known. known ≡ asked)
        → Shows (D.setting desk.old) D.may_be_unready (D.seen desk.old) (D.seen desk.new) (D.mine desk.old) (D.mine desk.new) moment early asked result (fetched_bytes pages.new) }
    ensures kept { (result ≡ Unkept) ⊎ D.is_kept desk.new }
    ensures room { IsRoomFor (D.setting desk.old) pages.new }
    ensures anchor { D.anchor desk.new ≡ D.anchor desk.old }
    ensures setting { D.setting desk.new ≡ D.setting desk.old }
{
    let told = answer_read(desk, pages, moment, read);
    kept(desk, told)
}

/// Makes the entry that was asked for, unless memory runs out, and returns the reply. A page is
/// fetched into the page buffer.
fn answer_read<D: Desk>(
    desk: &mut D,
    pages: &mut PageRoom,
    moment: Moment,
    read: Result<Result<Ask, Refused>, Memory>,
) -> Told
    requires room { IsRoomFor (D.setting desk.old) pages.old }
    ensures answer { (early : Bool) (asked : Result AnAsk ARefusal) → (early ≡ true → IsOk read) → IfOk read (λ known. known ≡ asked)
        → IsAnswer (D.setting desk.old) D.may_be_unready (D.seen desk.old) (D.seen desk.new) (D.mine desk.old) (D.mine desk.new) moment early asked result (fetched_bytes pages.new) }
    ensures room { IsRoomFor (D.setting desk.old) pages.new }
    ensures anchor { D.anchor desk.new ≡ D.anchor desk.old }
    ensures setting { D.setting desk.new ≡ D.setting desk.old }
{
    match read {
        Ok(asked) => match desk.ready() {
            Ok(()) => make(desk, pages, moment, asked),
            Err(_) => Told::Memory,
        },
        Err(_) => Told::Memory,
    }
}

/// What is shown of an answer, once all commits that the desk has seen are kept: that they cannot be, where
/// it is so. No reply shows a commit that a crash could take back.
fn kept<D: Desk>(desk: &mut D, told: Told) -> Told
    ensures shown { IsShown (D.setting desk.old) told result }
    ensures kept { (result ≡ Unkept) ⊎ D.is_kept desk.new }
    ensures seen { D.seen desk.new ≡ D.seen desk.old }
    ensures mine { D.mine desk.new ≡ D.mine desk.old }
    ensures anchor { D.anchor desk.new ≡ D.anchor desk.old }
    ensures setting { D.setting desk.new ≡ D.setting desk.old }
{
    match desk.keep() {
        Ok(()) => told,
        Err(_) => Told::Unkept,
    }
}

/// Makes the entry that was asked for at a desk that is ready. A refusal has an entry too, and is
/// given whatever memory there is.
fn make<D: Desk>(
    desk: &mut D,
    pages: &mut PageRoom,
    moment: Moment,
    asked: Result<Ask, Refused>,
) -> Told
    requires ready { D.is_ready desk.old }
    requires room { IsRoomFor (D.setting desk.old) pages.old }
    ensures answer { IsAnswer (D.setting desk.old) false (D.seen desk.old) (D.seen desk.new) (D.mine desk.old) (D.mine desk.new) moment true asked result (fetched_bytes pages.new) }
    ensures room { IsRoomFor (D.setting desk.old) pages.new }
    ensures anchor { D.anchor desk.new ≡ D.anchor desk.old }
    ensures setting { D.setting desk.new ≡ D.setting desk.old }
{
    match asked {
        Ok(Ask::Write { change, condition }) => match desk.write(moment, change, condition) {
            Ok(written) => Told::Write(written),
            Err(_) => Told::Memory,
        },
        Ok(Ask::Read { key, tags, .. }) => match desk.read(moment, key, tags) {
            Ok(answer) => Told::Read(answer),
            Err(_) => Told::Memory,
        },
        Ok(Ask::MatchAll) => match desk.match_all(moment) {
            Ok(matched) => Told::Match(matched),
            Err(_) => Told::Memory,
        },
        Ok(Ask::Horizon) => {
            // The law that such a drop tells the horizon by the front where it makes a tick.
            all_is_dropped_up_to_the_front();
            Told::Dropped(desk.drop_old(moment, Trim::All))
        }
        Ok(Ask::Fetch { .. }) => {
            desk.fetch(moment, pages);
            Told::Page(pages.moment())
        }
        Ok(Ask::Purges { from, .. }) => match desk.purges(moment, from) {
            Ok(reply) => Told::Purges(reply),
            Err(_) => Told::Memory,
        },
        Ok(Ask::Stats { .. }) => Told::Count(desk.tick(moment)),
        Err(refused) => Told::Refusal(refused, desk.tick(moment).clock),
    }
}
