//! What is known of trimmed certificates: each function's contract is a law.

ghost use Rattle.qv_check_trim.specs.TrimmedLaws.{CertsAreTrimmedOnce, CertsCanBeTrimmed};
ghost use Rattle.qv_check_trim.specs.TrimmedLaws.{TrimmedAreAccepted};

/// Beside its script a trimmed certificate has the same answers, and the same end.
pub fn trimmed_are_accepted()
    ensures { TrimmedAreAccepted }
{}

/// Each certificate can be trimmed beside each script.
pub fn certs_can_be_trimmed()
    ensures { CertsCanBeTrimmed }
{}

/// A certificate is trimmed in one way.
pub fn certs_are_trimmed_once()
    ensures { CertsAreTrimmedOnce }
{}
