//! The table of refusals: status, code, reason and locator of each row.

ghost use Rattle.std.specs.Prelude.{◌≡◌};
ghost use Rattle.reply_documents.specs.Refusals.{row, row_of, row_shown};

use http::StatusCode;

// What all refusals of one row of the table of refusals (docs/FORMATS.md) have in common.
#[derive(Clone, Copy, Debug)]
pub(crate) struct Row {
    // The status of the answer.
    pub(crate) status: StatusCode,
    // The code of the exception (OGC 06-121r9, 8.5; OGC 09-025r2, 7.5).
    pub(crate) code: &'static str,
    // What the exception points at, where that is the same in each; else it is empty here.
    pub(crate) locator: &'static str,
    // The exception's text.
    pub(crate) reason: &'static str,
}

fn row_with(
    status: StatusCode,
    code: &'static str,
    locator: &'static str,
    reason: &'static str,
) -> Row
    ensures { row_shown result ≡ row status code.now locator.now reason.now }
{
    Row {
        status,
        code,
        locator,
        reason,
    }
}

// The row with this number.
#[tactic(auto, unfolding(crate::specs::Refusals::row_of))]
pub(crate) fn row_of(number: u8) -> Row
    ensures { row_shown result ≡ row_of number }
{
    match number {
        1 => row_with(
            StatusCode::BAD_REQUEST,
            "OperationParsingFailed",
            "head",
            "bad message head",
        ),
        2 => row_with(
            StatusCode::PAYLOAD_TOO_LARGE,
            "NoApplicableCode",
            "size",
            "message too large",
        ),
        3 => row_with(
            StatusCode::LENGTH_REQUIRED,
            "NoApplicableCode",
            "Content-Length",
            "length required",
        ),
        4 => row_with(
            StatusCode::NOT_IMPLEMENTED,
            "OptionNotSupported",
            "coding",
            "coded body",
        ),
        5 => row_with(
            StatusCode::NOT_FOUND,
            "NoApplicableCode",
            "path",
            "unknown path",
        ),
        6 => row_with(
            StatusCode::NOT_IMPLEMENTED,
            "OperationNotSupported",
            "method",
            "unknown method",
        ),
        7 => row_with(
            StatusCode::BAD_REQUEST,
            "OperationParsingFailed",
            "document",
            "bad document",
        ),
        8 => row_with(
            StatusCode::BAD_REQUEST,
            "OperationParsingFailed",
            "",
            "misplaced or malformed",
        ),
        9 => row_with(
            StatusCode::NOT_IMPLEMENTED,
            "OperationNotSupported",
            "",
            "unknown operation",
        ),
        10 => row_with(
            StatusCode::BAD_REQUEST,
            "MissingParameterValue",
            "",
            "value missing",
        ),
        11 => row_with(
            StatusCode::BAD_REQUEST,
            "InvalidParameterValue",
            "",
            "value refused",
        ),
        12 => row_with(
            StatusCode::NOT_IMPLEMENTED,
            "OptionNotSupported",
            "",
            "option refused",
        ),
        13 => row_with(
            StatusCode::BAD_REQUEST,
            "VersionNegotiationFailed",
            "acceptVersions",
            "no common version",
        ),
        14 => row_with(
            StatusCode::BAD_REQUEST,
            "InvalidValue",
            "",
            "value does not fit",
        ),
        15 => row_with(
            StatusCode::BAD_REQUEST,
            "InvalidLockId",
            "lockId",
            "unknown lock",
        ),
        16 => row_with(
            StatusCode::FORBIDDEN,
            "LockHasExpired",
            "lockId",
            "lock has expired",
        ),
        17 => row_with(
            StatusCode::BAD_REQUEST,
            "InvalidValue",
            "Filter",
            "more than one feature",
        ),
        18 => row_with(
            StatusCode::BAD_REQUEST,
            "MissingParameterValue",
            "lockId",
            "feature is locked",
        ),
        19 => row_with(
            StatusCode::FORBIDDEN,
            "OperationProcessingFailed",
            "",
            "feature is locked by another",
        ),
        20 => row_with(
            StatusCode::CONFLICT,
            "CannotLockAllFeatures",
            "",
            "not all are free",
        ),
        21 => row_with(
            StatusCode::CONFLICT,
            "DuplicateStoredQueryIdValue",
            "",
            "query exists",
        ),
        22 => row_with(
            StatusCode::BAD_REQUEST,
            "DuplicateStoredQueryParameterName",
            "",
            "parameter twice",
        ),
        23 => row_with(
            StatusCode::NOT_FOUND,
            "InvalidParameterValue",
            "id",
            "no such feature",
        ),
        24 => row_with(
            StatusCode::BAD_REQUEST,
            "InvalidParameterValue",
            "storedQuery_id",
            "no such query",
        ),
        25 => row_with(
            StatusCode::INTERNAL_SERVER_ERROR,
            "NoApplicableCode",
            "store",
            "store fault",
        ),
        26 => row_with(
            StatusCode::SERVICE_UNAVAILABLE,
            "NoApplicableCode",
            "full",
            "full",
        ),
        _ => row_with(
            StatusCode::SERVICE_UNAVAILABLE,
            "NoApplicableCode",
            "memory",
            "no memory",
        ),
    }
}
