// Theorems on the format, each the contract of a function that does nothing.
ghost use Rattle.message.specs.Laws.{ReadsBack, AcceptedIsLawful, AcceptedIsRow, OneRow, FaultIsWrong, FaultIsFirst};
ghost use Rattle.message.specs.Examples.{TransferInvokeRow, IdentifyResultRow};

// What is written reads back, and each message has one accepted row.
pub fn format_stands()
    ensures reads_back { ReadsBack }
    ensures lawful { AcceptedIsLawful }
    ensures row { AcceptedIsRow }
    ensures one { OneRow }
{}

// A fault names the first wrong byte.
pub fn faults_stand()
    ensures wrong { FaultIsWrong }
    ensures first { FaultIsFirst }
{}

// Two rows worked by hand.
pub fn examples_stand()
    ensures transfer { TransferInvokeRow }
    ensures identify { IdentifyResultRow }
{}
