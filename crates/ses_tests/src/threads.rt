use ses_report::{Detail, Refusal};
use ses_step::{Answer, Asked, Begun, Command, Definition, LineForm, NamedKind, Names, Session};

fn is_shared<T: Send + Sync>() {}

#[test]
fn sessions_cross_threads() {
    is_shared::<Refusal>();
    is_shared::<Detail>();
    is_shared::<Session>();
    is_shared::<Names>();
    is_shared::<Begun>();
    is_shared::<Answer>();
    is_shared::<Asked>();
    is_shared::<Command>();
    is_shared::<LineForm>();
    is_shared::<Definition>();
    is_shared::<NamedKind>();
}
