//! What is true of every member, as laws over the definitions: they run nothing. That a member is one
//! [`crate::Member::replica`] tells.
ghost use Rattle.la_runner.specs.Laws.{CertifiedCompare, OwnAreCertified, ViewsAreCertified};
ghost use Rattle.la_runner.specs.Laws.{LearntAreOwnCertified, NothingIsInvented, CertificatesStay, ViewsCompare};

/// Any two sets with certificates in one member's passes of one instance are comparable.
pub fn certified_sets_are_comparable()
    ensures { CertifiedCompare }
{}

/// A set with an own certificate has a certificate.
pub fn own_certificates_are_certificates()
    ensures { OwnAreCertified }
{}

/// Certificates, and own ones, stay as a member goes on.
pub fn certificates_stay()
    ensures { CertificatesStay }
{}

/// A member's view is empty, or has a certificate in its passes.
pub fn views_are_certified()
    ensures { ViewsAreCertified }
{}

/// A member's view is comparable with each set that has a certificate in its passes of instance 0.
pub fn views_are_comparable_with_certified_sets()
    ensures { ViewsCompare }
{}

/// The set that a member learnt last in an instance has an own certificate there.
pub fn last_learnt_sets_are_certified()
    ensures { LearntAreOwnCertified }
{}

/// No invention: each update of a set that a member offered is its own submission in that instance,
/// or was told to it by a refusal of an own offer whose set lacked it.
pub fn nothing_is_invented()
    ensures { NothingIsInvented }
{}
