//! What is known of network texts and of their faults by reading them. The statements stand with the definitions.
ghost use Rattle.eon_model.specs.NetworkTextLaws.{FaultlessTextsAreOfASetup, NetworkFaultTellsTexts, TextsCanGoOn};

/// Bytes without a fault are the text of a setup in range.
pub fn faultless_texts_are_of_a_setup()
    ensures { FaultlessTextsAreOfASetup }
{}

/// Bytes have no fault just where they are the text of some setup in range.
pub fn network_fault_tells_texts()
    ensures { NetworkFaultTellsTexts }
{}

/// Whole lines of which none is wrong, and which have not come to `end`, begin the text of a setup in range, and one
/// that is shorter than 1,048,576 bytes.
pub fn texts_can_go_on()
    ensures { TextsCanGoOn }
{}
