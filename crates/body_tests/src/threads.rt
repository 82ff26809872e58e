use aw_body::{Body, BodyPatch, Change, Fresh, Seen};
use aw_dim::{DimFault, Dimension};
use aw_page::{Page, TextPage};
use aw_schema::{Catalogue, Def, DefKind, SchemaFault};
use aw_var::{Patch, VarFault, Variable};

fn is_shared<T: Send + Sync>() {}

#[test]
fn values_cross_threads() {
    is_shared::<Page>();
    is_shared::<TextPage>();
    is_shared::<Dimension>();
    is_shared::<DimFault>();
    is_shared::<Variable>();
    is_shared::<VarFault>();
    is_shared::<Patch>();
}

#[test]
fn objects_cross_threads() {
    is_shared::<Catalogue>();
    is_shared::<Def>();
    is_shared::<DefKind>();
    is_shared::<SchemaFault>();
    is_shared::<Body>();
    is_shared::<BodyPatch>();
    is_shared::<Change>();
    is_shared::<Fresh>();
    is_shared::<Seen>();
}
