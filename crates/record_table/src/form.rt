// Which index the data of a store has.
ghost use Rattle.std.specs.Prelude.{◌≡◌, ◌≢◌, ◌*◌, ◌≤◌, ◌↔◌, IfSome, IfNone, IsErrOf, IsTrue};
ghost use Rattle.array_shape.specs.Places.{page_count};
ghost use Rattle.page_store.specs.Looks.{is_check_failed};
ghost use Rattle.record_table.specs.Form.{form_number, FormCause, LooksAt};

use array_shape::Shape;
use eaw_face::{EawFault, EawStore};
use page_store::CheckFault;
use record_slots::{Super, has_tables, read_super};

const PAGE_LEN: usize = 512;

/// Which index the data has.
#[derive(Clone, Copy, Debug, PartialEq, Eq)]
pub enum Form {
    /// A chain of pages: form 0.
    Chain,
    /// A tree of pages: form 1.
    Tree,
}

/// Which index the data of a store has, as its super page says. Page 0 is damaged if it is sound for neither form. The pages of the index
/// itself are not read.
pub fn form_of<S: EawStore>(store: &mut S) -> Result<Form, CheckFault>
    ensures looks { LooksAt S.tells (S.opens (S.view store.old).shape) (is_check_failed result) (S.view store.old) (S.view store.new) }
    ensures cause { FormCause S.tells (S.view store.old) result }
    ensures dead { IsErrOf result CheckFault.Dead → store.new ≡ store.old }
{
    let shape = store.shape();
    let mut bytes = [0; PAGE_LEN];
    match store.read(0, &mut bytes) {
        Ok(()) => {}
        Err(EawFault::Media) => return Err(CheckFault::Media),
        Err(_) => return Err(CheckFault::Dead),
    }
    let Some(front) = read_super(&bytes) else {
        return Err(CheckFault::Damaged { page: 0 });
    };
    if !has_counts(&front, &shape) {
        return Err(CheckFault::Damaged { page: 0 });
    }
    if !has_tables(&front) {
        return Err(CheckFault::Damaged { page: 0 });
    }
    match numbered(front.form) {
        Some(form) => Ok(form),
        None => Err(CheckFault::Damaged { page: 0 }),
    }
}

// The form of this number.
fn numbered(number: u8) -> Option<Form>
    ensures some { IfSome result (λ form. number ≡ form_number form) }
    ensures none { IfNone result ((number ≢ 0) × (number ≢ 1)) }
{
    if number == 0 {
        return Some(Form::Chain);
    }
    if number == 1 {
        return Some(Form::Tree);
    }
    None
}

// Whether the counts fit an array of this shape: half of its pages are for the index, and each of the others has eight slots.
fn has_counts(front: &Super, shape: &Shape) -> bool
    ensures { IsTrue result ↔ (front.now.next_slot ≤ 4 * page_count shape.now) × (2 ≤ front.now.next_page) × (2 * front.now.next_page ≤ page_count shape.now) }
{
    let pages = u64::from(shape.loggers) * u64::from(shape.pages);
    u64::from(front.next_slot) <= 4 * pages
        && 2 <= front.next_page
        && 2 * u64::from(front.next_page) <= pages
}
